//! How many instructions a change of a place has, as a compound assignment, `++` and `--` make it (C17 6.5.2.4, 6.5.3.1, 6.5.16.2).
ghost use Rattle.std.specs.Prelude.{◌≡◌, ◌≤◌};
ghost use Rattle.k_evaluation.specs.Assignments.{side_kind as side_meant};
ghost use Rattle.k_evaluation.specs.Meanings.{kind_of as kind_meant};
ghost use Rattle.k_evaluation.specs.Operators.{kind_or_int as kind_or_int_meant};
ghost use Rattle.k_lower_extents.specs.ExpressionSums.{back_size as back_meant, between_size as between_meant, change_size as change_meant, changing_size as changing_meant, combined_size as combined_meant, old_size as old_meant, side_size as side_size_meant};

use k_num::{Bin, Kind, promote};
use k_types_meaning::{Change, TType};

/// The kind of a number's type.
pub(crate) fn kind_of(of: TType) -> Option<Kind>
    ensures { result ≡ kind_meant of }
{
    match of {
        TType::Number(kind) => Some(kind),
        _ => None,
    }
}

/// A kind, or int.
fn kind_or_int(kind: Option<Kind>) -> Kind
    ensures { result ≡ kind_or_int_meant kind }
{
    match kind {
        Some(kind) => kind,
        None => Kind::I32,
    }
}

/// The kind of the right operand of an operation in a kind.
fn side_kind(op: Bin, kind: Kind, from: Option<Kind>) -> Kind
    ensures { result ≡ side_meant op kind from }
{
    match op {
        Bin::Shl | Bin::Shr => promote(kind_or_int(from)),
        _ => kind,
    }
}

/// The size of a conversion from one kind to another: none where they are one.
fn between_size(from: Kind, to: Kind) -> u32
    ensures is { result ≡ between_meant from to }
    ensures small { result ≤ 1 }
{
    if from == to { 0 } else { 1 }
}

/// The size of a conversion of a value whose kind may not be known.
fn side_size(from: Option<Kind>, to: Kind) -> u32
    ensures is { result ≡ side_size_meant from to }
    ensures small { result ≤ 1 }
{
    match from {
        None => 0,
        Some(from) => between_size(from, to),
    }
}

/// The size of a conversion of a result back to the kind of its place.
fn back_size(from: Kind, to: Option<Kind>) -> u32
    ensures is { result ≡ back_meant from to }
    ensures small { result ≤ 1 }
{
    match to {
        None => 0,
        Some(to) => between_size(from, to),
    }
}

/// The size of an operation on an old value and a right operand of these kinds, with its conversions.
fn combined_size(op: Bin, kind: Kind, of: Option<Kind>, by: Option<Kind>) -> u32
    ensures is { result ≡ combined_meant op kind of by }
    ensures small { result ≤ 4 }
{
    let old = side_size(of, kind);
    let right = side_size(by, side_kind(op, kind, by));
    let back = back_size(kind, of);
    old + right + 1 + back
}

/// The size of what a change makes of the old value of a place of this type.
fn change_size(change: Change, of: TType, by: Option<Kind>) -> u32
    ensures is { result ≡ change_meant change of by }
    ensures small { result ≤ 4 }
{
    match change {
        Change::Number(op, kind) => combined_size(op, kind, kind_of(of), by),
        Change::Forward | Change::Back => 1,
    }
}

/// The size of the read of an old value, by whether it stands in a register.
fn old_size(register: bool) -> u32
    ensures is { result ≡ old_meant register }
    ensures small { result ≤ 1 }
{
    if register { 0 } else { 1 }
}

/// The size of a change of a place: the read of its old value, what is made of it, and the write.
pub(crate) fn changing_size(change: Change, of: TType, register: bool, by: Option<Kind>) -> u32
    ensures { result ≡ changing_meant change of register by }
{
    let old = old_size(register);
    let made = change_size(change, of, by);
    old + made + 1
}
