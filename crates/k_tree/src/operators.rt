//! The operators that marks are.
ghost use Rattle.std.specs.Prelude.{◌≡◌};
ghost use Rattle.k_tree.specs.Operators as spec;

use crate::tokens::mark::Mark;
use k_num::Bin;

/// The binary operator that a mark is between two operands (C17 6.5.5 to 6.5.14).
pub fn operator_of(mark: Mark) -> Option<Bin>
    ensures { result ≡ spec.operator_of mark }
{
    let operator = match mark {
        Mark::Plus => Bin::Add,
        Mark::Minus => Bin::Sub,
        Mark::Star => Bin::Mul,
        Mark::Slash => Bin::Div,
        Mark::Percent => Bin::Rem,
        Mark::Ampersand => Bin::And,
        Mark::Bar => Bin::Or,
        Mark::Caret => Bin::Xor,
        Mark::ShiftLeft => Bin::Shl,
        Mark::ShiftRight => Bin::Shr,
        Mark::Less => Bin::Lt,
        Mark::LessEqual => Bin::Le,
        Mark::Greater => Bin::Gt,
        Mark::GreaterEqual => Bin::Ge,
        Mark::EqualEqual => Bin::Eq,
        Mark::ExclaimEqual => Bin::Ne,
        Mark::AmpersandAmpersand => Bin::LogAnd,
        Mark::BarBar => Bin::LogOr,
        _ => return None,
    };
    Some(operator)
}

/// The binary operator that a compound assignment applies, as `+` for `+=` (C17 6.5.16.2). `=` applies none.
pub fn compound_operator_of(mark: Mark) -> Option<Bin>
    ensures { result ≡ spec.compound_operator_of mark }
{
    let operator = match mark {
        Mark::PlusEqual => Bin::Add,
        Mark::MinusEqual => Bin::Sub,
        Mark::StarEqual => Bin::Mul,
        Mark::SlashEqual => Bin::Div,
        Mark::PercentEqual => Bin::Rem,
        Mark::AmpersandEqual => Bin::And,
        Mark::BarEqual => Bin::Or,
        Mark::CaretEqual => Bin::Xor,
        Mark::ShiftLeftEqual => Bin::Shl,
        Mark::ShiftRightEqual => Bin::Shr,
        _ => return None,
    };
    Some(operator)
}
