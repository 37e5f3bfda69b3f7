//! What the types and the marks of a typed tree say of an operation.
ghost use Rattle.std.specs.Prelude.{◌≡◌, slice_get};
ghost use Rattle.k_evaluation.specs.Meanings.{flag as flag_meant, kind_of as kind_meant, scale_of as scale_meant};
ghost use Rattle.k_evaluation.specs.Operators.{class_of as class_meant, kind_or_int as kind_or_int_meant};

use k_num::{Bin, Kind};
use k_optab::Class;
use k_types_meaning::TType;

/// The class of a binary operation.
pub fn class_of(op: Bin) -> Class
    ensures { result ≡ class_meant op }
{
    match op {
        Bin::Mul => Class::Mul,
        Bin::Div | Bin::Rem => Class::Div,
        _ => Class::Simple,
    }
}

/// The numbers that one element of a pointer has.
pub fn scale_of(of: TType) -> u32
    ensures { result ≡ scale_meant of }
{
    match of {
        TType::Pointer(target) => target.elements,
        _ => 1,
    }
}

/// The kind of a number's type.
pub fn kind_of(of: TType) -> Option<Kind>
    ensures { result ≡ kind_meant of }
{
    match of {
        TType::Number(kind) => Some(kind),
        _ => None,
    }
}

/// A kind, or int.
pub fn kind_or_int(kind: Option<Kind>) -> Kind
    ensures { result ≡ kind_or_int_meant kind }
{
    match kind {
        Some(kind) => kind,
        None => Kind::I32,
    }
}

/// A mark that may not be there.
pub fn flag(marks: &[bool], number: u32) -> bool
    ensures { result ≡ flag_meant (slice_get marks.now number) }
{
    match marks.get(number as usize) {
        Some(mark) => *mark,
        None => false,
    }
}
