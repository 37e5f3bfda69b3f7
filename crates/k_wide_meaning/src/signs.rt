//! How an expression is spelled without its places.

use k_num::{Bin, Kind, Un};
use k_types_meaning::TType;

/// An operator or an operand of an expression without side effect.
#[derive(Clone, Copy, PartialEq, Eq)]
pub enum Sign {
    /// A number.
    Number(i128),
    /// The file object of this number.
    Object(u32),
    /// The variable of this number.
    Variable(u32),
    /// `[ ]`
    Index,
    /// `&`
    Address,
    /// `*`
    Deref,
    /// `+` of one operand.
    Plus,
    /// `- ~ !`, made in a kind.
    Unary(Un, Kind),
    /// A conversion to a type that the source does not write.
    Convert(TType),
    /// A cast to a type.
    Cast(TType),
    /// An operator on two numbers, made in a kind.
    Binary(Bin, Kind),
    /// `&&`
    Both,
    /// `||`
    Either,
    /// `+` of a pointer and a number.
    Forward,
    /// `+` of a number and a pointer.
    Onto,
    /// `-` of a pointer and a number.
    Back,
    /// A comparison of two pointers.
    PtrCompare(Bin),
    /// `-` of two pointers.
    PtrDistance,
    /// `? :`
    Cond,
    /// `,`
    Comma,
    /// A side effect, a call, or a string.
    Other,
}
