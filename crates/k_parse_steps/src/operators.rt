//! Ranks of operators (C17 6.5.2 to 6.5.17).
ghost use Rattle.std.specs.Prelude.{◌≡◌, ◌≤◌, IfSome};
ghost use Rattle.k_tree.specs.Ranked.{binary_rank, is_assignment};
ghost use Rattle.k_parse_steps.specs.Operators as spec;

use k_tree::{Mark, Word};

/// An operator behind an operand: the least rank of that operand, the rank of what it makes, and the least rank of an
/// operand behind it.
#[derive(Clone, Copy, Debug, PartialEq, Eq)]
pub struct Binding {
    pub left: u8,
    pub own: u8,
    pub right: u8,
}

/// The rank of a binary operator (C17 6.5.5 to 6.5.14).
fn binary_rank(mark: Mark) -> Option<u8>
    ensures rank { result ≡ binary_rank mark }
    ensures small { IfSome result (λ rank. rank ≤ 12) }
{
    let rank = match mark {
        Mark::Star | Mark::Slash | Mark::Percent => 12,
        Mark::Plus | Mark::Minus => 11,
        Mark::ShiftLeft | Mark::ShiftRight => 10,
        Mark::Less | Mark::Greater | Mark::LessEqual | Mark::GreaterEqual => 9,
        Mark::EqualEqual | Mark::ExclaimEqual => 8,
        Mark::Ampersand => 7,
        Mark::Caret => 6,
        Mark::Bar => 5,
        Mark::AmpersandAmpersand => 4,
        Mark::BarBar => 3,
        _ => return None,
    };
    Some(rank)
}

/// Is it an operator of assignment (C17 6.5.16)?
fn is_assignment(mark: Mark) -> bool
    ensures { result ≡ is_assignment mark }
{
    matches!(
        mark,
        Mark::Equal
            | Mark::StarEqual
            | Mark::SlashEqual
            | Mark::PercentEqual
            | Mark::PlusEqual
            | Mark::MinusEqual
            | Mark::ShiftLeftEqual
            | Mark::ShiftRightEqual
            | Mark::AmpersandEqual
            | Mark::CaretEqual
            | Mark::BarEqual
    )
}

/// How an operator behind an operand binds that is neither binary nor an assignment.
fn other_binding(mark: Mark) -> Option<Binding>
    ensures { result ≡ spec.other_binding mark }
{
    let (left, own, right) = match mark {
        Mark::Comma => (0, 0, 1),
        Mark::Question => (3, 2, 2),
        Mark::LeftBracket | Mark::PlusPlus | Mark::MinusMinus => (15, 15, 0),
        _ => return None,
    };
    Some(Binding { left, own, right })
}

/// How an operator behind an operand binds.
pub fn binding_of(mark: Mark) -> Option<Binding>
    ensures { result ≡ spec.binding mark }
{
    if let Some(rank) = binary_rank(mark) {
        return Some(Binding {
            left: rank,
            own: rank,
            right: rank + 1,
        });
    }
    if is_assignment(mark) {
        return Some(Binding {
            left: 14,
            own: 1,
            right: 1,
        });
    }
    other_binding(mark)
}

/// The least rank of an operand behind an operator.
#[tactic(auto, unfolding(crate::specs::Operators::right_rank))]
pub fn right_rank(mark: Mark) -> u8
    ensures { result ≡ spec.right_rank mark }
{
    match binding_of(mark) {
        Some(binding) => binding.right,
        None => 0,
    }
}

/// The rank of what an operator makes.
#[tactic(auto, unfolding(crate::specs::Operators::own_rank))]
pub fn own_rank(mark: Mark) -> u8
    ensures { result ≡ spec.own_rank mark }
{
    match binding_of(mark) {
        Some(binding) => binding.own,
        None => 0,
    }
}

/// Does an operator go on with an operand of this rank, in a place that takes this rank or a higher one?
#[tactic(auto, unfolding(crate::specs::Operators::takes))]
pub fn takes(hole: u8, rank: u8, mark: Mark) -> bool
    ensures { result ≡ spec.takes hole rank mark }
{
    match binding_of(mark) {
        Some(binding) => hole <= binding.own && binding.left <= rank,
        None => false,
    }
}

/// Is it `++` or `--`?
#[tactic(auto, unfolding(crate::specs::Operators::is_step_mark))]
pub fn is_step(mark: Mark) -> bool
    ensures { result ≡ spec.is_step_mark mark }
{
    matches!(mark, Mark::PlusPlus | Mark::MinusMinus)
}

/// Is it a specifier?
#[tactic(auto, unfolding(crate::specs::Operators::is_spec_word))]
pub fn is_spec(word: Word) -> bool
    ensures { result ≡ spec.is_spec_word word }
{
    matches!(
        word,
        Word::Void
            | Word::Char
            | Word::Short
            | Word::Int
            | Word::Long
            | Word::Signed
            | Word::Unsigned
            | Word::Const
            | Word::Static
    )
}
