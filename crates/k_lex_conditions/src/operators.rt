//! Which marks are operators of a condition.
ghost use Rattle.std.specs.Prelude.{◌≡◌};
ghost use Rattle.k_tree.specs.Ranked as ranked;
ghost use Rattle.k_lex_conditions.specs.Trees as spec;

use k_tree::Mark;

/// The rank of a binary operator (C17 6.5.5 to 6.5.14).
pub fn binary_rank(mark: Mark) -> Option<u8>
    ensures { result ≡ ranked.binary_rank mark }
{
    let rank = match mark {
        Mark::Star | Mark::Slash | Mark::Percent => 12,
        Mark::Plus | Mark::Minus => 11,
        Mark::ShiftLeft | Mark::ShiftRight => 10,
        Mark::Less | Mark::Greater | Mark::LessEqual | Mark::GreaterEqual => 9,
        Mark::EqualEqual | Mark::ExclaimEqual => 8,
        Mark::Ampersand => 7,
        Mark::Caret => 6,
        Mark::Bar => 5,
        Mark::AmpersandAmpersand => 4,
        Mark::BarBar => 3,
        _ => return None,
    };
    Some(rank)
}

/// Is it an operator that stands before its operand?
pub fn is_sign(mark: Mark) -> bool
    ensures { result ≡ spec.is_sign mark }
{
    matches!(mark, Mark::Plus | Mark::Minus | Mark::Tilde | Mark::Exclaim)
}
