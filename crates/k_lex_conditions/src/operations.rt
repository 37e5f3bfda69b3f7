//! The operations of a condition on values (C17 6.5, 6.10.1p4).
ghost use Rattle.std.specs.Prelude.{◌≡◌, Option, IsTrue};
ghost use Rattle.k_num.specs.Kind.{converted, is_held};
ghost use Rattle.k_num.specs.Arithmetic.{CanBeRight};
ghost use Rattle.k_lex_conditions.specs.Values as spec;

use crate::value::Value;
use k_num::{Bin, Kind, NumTrap, Un, binary, common, convert, unary};
use k_tree::{Mark, operator_of};

/// The number that an operation gives.
fn untrapped(outcome: Result<i128, NumTrap>) -> Option<i128>
    ensures { result ≡ spec.untrapped outcome }
{
    match outcome {
        Ok(number) => Some(number),
        Err(_) => None,
    }
}

fn unary_number(op: Un, kind: Kind, number: Option<i128>) -> Option<i128>
    ensures { result ≡ spec.unary_number op kind number }
{
    match number {
        Some(z) => untrapped(unary(op, kind, convert(kind, z))),
        None => None,
    }
}

/// An operator before its operand.
pub fn prefixed(op: Mark, a: Value) -> Value
    ensures { result ≡ spec.prefixed op a }
{
    match op {
        Mark::Minus => Value {
            kind: a.kind,
            number: unary_number(Un::Neg, a.kind, a.number),
        },
        Mark::Tilde => Value {
            kind: a.kind,
            number: unary_number(Un::Complement, a.kind, a.number),
        },
        Mark::Exclaim => Value {
            kind: Kind::I64,
            number: unary_number(Un::Not, a.kind, a.number),
        },
        _ => a,
    }
}

/// The kind that an operation is made in.
fn made_in(op: Bin, a: Kind, b: Kind) -> Kind
    ensures { result ≡ spec.made_in op a b }
{
    match op {
        Bin::Shl | Bin::Shr => a,
        _ => common(a, b),
    }
}

/// The kind that the right operand is converted to.
fn right_in(op: Bin, kind: Kind, own: Kind) -> Kind
    ensures { result ≡ spec.right_in op kind own }
{
    match op {
        Bin::Shl | Bin::Shr => own,
        _ => kind,
    }
}

/// The kind of what an operation gives.
fn given_kind(op: Bin, kind: Kind) -> Kind
    ensures { result ≡ spec.given_kind op kind }
{
    match op {
        Bin::Lt | Bin::Le | Bin::Gt | Bin::Ge | Bin::Eq | Bin::Ne => Kind::I64,
        _ => kind,
    }
}

/// An operand in a kind.
#[tactic(auto, using(k_num::proofs::KindLaws::held_converted))]
fn operand_in(kind: Kind, z: i128) -> i128
    ensures value { result ≡ converted kind z }
    ensures held { IsTrue (is_held kind result) }
{
    convert(kind, z)
}

/// The right operand of an operation that is made in this kind.
fn right_operand(op: Bin, kind: Kind, own: Kind, z: i128) -> i128
    ensures value { result ≡ converted (spec.right_in op kind own) z }
    ensures fits { CanBeRight op kind result }
{
    operand_in(right_in(op, kind, own), z)
}

/// A binary operation on two numbers, each converted to the kind that the operation asks for.
fn computed(op: Bin, a: Kind, b: Kind, x: i128, y: i128) -> Option<i128>
    ensures { result ≡ spec.binary_number op a b (Option.Some x) (Option.Some y) }
{
    let kind = made_in(op, a, b);
    let left = operand_in(kind, x);
    let right = right_operand(op, kind, b, y);
    untrapped(binary(op, kind, left, right))
}

fn binary_number(op: Bin, a: Value, b: Value) -> Option<i128>
    ensures { result ≡ spec.binary_number op a.kind b.kind a.number b.number }
{
    match (a.number, b.number) {
        (Some(x), Some(y)) => computed(op, a.kind, b.kind, x, y),
        _ => None,
    }
}

/// A binary operation other than `&&` and `||`.
fn binary_value(op: Bin, a: Value, b: Value) -> Value
    ensures { result ≡ spec.binary_value op a b }
{
    let kind = made_in(op, a.kind, b.kind);
    Value {
        kind: given_kind(op, kind),
        number: binary_number(op, a, b),
    }
}

/// 1 where a number is not 0, else 0.
fn truth_number(number: Option<i128>) -> Option<i128>
    ensures { result ≡ spec.truth_number number }
{
    match number {
        Some(z) => Some(if z == 0 { 0 } else { 1 }),
        None => None,
    }
}

fn both_number(a: Option<i128>, b: Option<i128>) -> Option<i128>
    ensures { result ≡ spec.both_number a b }
{
    match a {
        Some(0) => Some(0),
        Some(_) => truth_number(b),
        None => None,
    }
}

fn either_number(a: Option<i128>, b: Option<i128>) -> Option<i128>
    ensures { result ≡ spec.either_number a b }
{
    match a {
        Some(0) => truth_number(b),
        Some(_) => Some(1),
        None => None,
    }
}

/// A number of kind `int`, or none.
fn int(number: Option<i128>) -> Value
    ensures { result ≡ spec.of_kind Kind.I64 number }
{
    Value {
        kind: Kind::I64,
        number,
    }
}

fn infixed_by(op: Bin, a: Value, b: Value) -> Value
    ensures { result ≡ spec.infixed_by (Option.Some op) a b }
{
    match op {
        Bin::LogAnd => int(both_number(a.number, b.number)),
        Bin::LogOr => int(either_number(a.number, b.number)),
        other => binary_value(other, a, b),
    }
}

/// A mark between its operands.
pub fn infixed(op: Mark, a: Value, b: Value) -> Value
    ensures { result ≡ spec.infixed op a b }
{
    match operator_of(op) {
        Some(operator) => infixed_by(operator, a, b),
        None => a,
    }
}

/// The number of the one operand that is evaluated.
fn chosen_number(test: Option<i128>, a: Option<i128>, b: Option<i128>) -> Option<i128>
    ensures { result ≡ spec.chosen_number test a b }
{
    match test {
        Some(0) => b,
        Some(_) => a,
        None => None,
    }
}

fn number_in(kind: Kind, number: Option<i128>) -> Option<i128>
    ensures { result ≡ spec.number_in kind number }
{
    match number {
        Some(z) => Some(convert(kind, z)),
        None => None,
    }
}

/// `test ? a : b`
pub fn chosen(test: Value, a: Value, b: Value) -> Value
    ensures { result ≡ spec.chosen test a b }
{
    let kind = common(a.kind, b.kind);
    let number = chosen_number(test.number, a.number, b.number);
    Value {
        kind,
        number: number_in(kind, number),
    }
}
