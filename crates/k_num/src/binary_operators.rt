//! The binary operators of C17 6.5.5 to 6.5.14 on values of one kind.
ghost use Rattle.std.specs.Prelude.{◌≡◌, ◌<◌, ◌^◌, ◌+ℤ◌, ◌-ℤ◌, ◌*ℤ◌, pos, IsTrue, true, false, ◌&&◌, not, int_div, unsigned_abs};
ghost use Rattle.std.specs.Int.{int_shr};
ghost use Rattle.k_num.specs.Kind.{is_held, is_signed as is_signed_kind};
ghost use Rattle.k_num.specs.Arithmetic.{given as given_by, value, CanBeRight, is_distance as is_distance_of, can_shift_left as may_shift_left, truth as truth_of, is_zero as equals_zero};

use crate::kinds::{bits, greatest, holds, is_signed, low_bits, remainder, value_of_bits};
use crate::{Bin, Kind, NumTrap};

/// What the kind gives an exact result.
pub(crate) fn given(kind: Kind, exact: i128, trap: NumTrap) -> Result<i128, NumTrap>
    ensures { result ≡ given_by trap kind exact }
{
    if holds(kind, exact) {
        Ok(exact)
    } else if is_signed(kind) {
        Err(trap)
    } else {
        Ok(remainder(kind, exact) as i128)
    }
}

/// The same for a product of unsigned numbers, which may be above the greatest i128, and for a number shifted left.
fn given_natural(kind: Kind, exact: u128, trap: NumTrap) -> Result<i128, NumTrap>
    ensures { result ≡ given_by trap kind (pos exact) }
{
    if exact <= greatest(kind) as u128 {
        Ok(exact as i128)
    } else if is_signed(kind) {
        Err(trap)
    } else {
        Ok(low_bits(kind, exact) as i128)
    }
}

/// 1 where the test holds, and 0 where not.
pub(crate) fn truth(test: bool) -> i128
    ensures { result ≡ truth_of test }
{
    if test { 1 } else { 0 }
}

/// The exact sum: of two values of a kind it fits an i128.
fn sum(kind: Kind, a: i128, b: i128) -> i128
    requires left { IsTrue (is_held kind a) }
    requires right { IsTrue (is_held kind b) }
    ensures { result ≡ a +ℤ b }
{
    a + b
}

fn add(kind: Kind, a: i128, b: i128) -> Result<i128, NumTrap>
    requires left { IsTrue (is_held kind a) }
    requires right { IsTrue (is_held kind b) }
    ensures { result ≡ value Bin.Add kind a b }
{
    given(kind, sum(kind, a, b), NumTrap::Overflow)
}

/// The exact difference.
fn difference(kind: Kind, a: i128, b: i128) -> i128
    requires left { IsTrue (is_held kind a) }
    requires right { IsTrue (is_held kind b) }
    ensures { result ≡ a -ℤ b }
{
    a - b
}

fn subtract(kind: Kind, a: i128, b: i128) -> Result<i128, NumTrap>
    requires left { IsTrue (is_held kind a) }
    requires right { IsTrue (is_held kind b) }
    ensures { result ≡ value Bin.Sub kind a b }
{
    given(kind, difference(kind, a, b), NumTrap::Overflow)
}

/// The exact product of two values of a signed kind, which fits an i128.
fn product(kind: Kind, a: i128, b: i128) -> i128
    requires signed { is_signed_kind kind ≡ true }
    requires left { IsTrue (is_held kind a) }
    requires right { IsTrue (is_held kind b) }
    ensures { result ≡ a *ℤ b }
{
    a * b
}

/// The exact product of two values of an unsigned kind, which fits a u128.
fn product_of_naturals(kind: Kind, a: i128, b: i128) -> u128
    requires unsigned { is_signed_kind kind ≡ false }
    requires left { IsTrue (is_held kind a) }
    requires right { IsTrue (is_held kind b) }
    ensures { pos result ≡ a *ℤ b }
{
    a as u128 * b as u128
}

fn multiply(kind: Kind, a: i128, b: i128) -> Result<i128, NumTrap>
    requires left { IsTrue (is_held kind a) }
    requires right { IsTrue (is_held kind b) }
    ensures { result ≡ value Bin.Mul kind a b }
{
    if is_signed(kind) {
        given(kind, product(kind, a, b), NumTrap::Overflow)
    } else {
        given_natural(kind, product_of_naturals(kind, a, b), NumTrap::Overflow)
    }
}

/// Whether a number is 0.
pub(crate) fn is_zero(a: i128) -> bool
    ensures { result ≡ equals_zero a }
{
    a == 0
}

/// The quotient, rounded toward zero.
fn quotient(kind: Kind, a: i128, b: i128) -> i128
    requires left { IsTrue (is_held kind a) }
    requires right { IsTrue (is_held kind b) }
    requires divisor { equals_zero b ≡ false }
    ensures { result ≡ int_div a b }
{
    a / b
}

/// The dividend without the quotient times the divisor.
fn rest(kind: Kind, a: i128, b: i128) -> i128
    requires left { IsTrue (is_held kind a) }
    requires right { IsTrue (is_held kind b) }
    requires divisor { equals_zero b ≡ false }
    ensures { result ≡ a -ℤ (int_div a b *ℤ b) }
{
    a % b
}

fn divide(kind: Kind, a: i128, b: i128) -> Result<i128, NumTrap>
    requires left { IsTrue (is_held kind a) }
    requires right { IsTrue (is_held kind b) }
    ensures { result ≡ value Bin.Div kind a b }
{
    if is_zero(b) {
        return Err(NumTrap::DivideByZero);
    }
    given(kind, quotient(kind, a, b), NumTrap::Overflow)
}

/// The kind is signed and doesn't hold the quotient.
fn quotient_overflows(kind: Kind, a: i128, b: i128) -> bool
    requires left { IsTrue (is_held kind a) }
    requires right { IsTrue (is_held kind b) }
    requires divisor { equals_zero b ≡ false }
    ensures { result ≡ (is_signed_kind kind && not (is_held kind (int_div a b))) }
{
    is_signed(kind) && !holds(kind, quotient(kind, a, b))
}

fn take_rest(kind: Kind, a: i128, b: i128) -> Result<i128, NumTrap>
    requires left { IsTrue (is_held kind a) }
    requires right { IsTrue (is_held kind b) }
    ensures { result ≡ value Bin.Rem kind a b }
{
    if is_zero(b) {
        return Err(NumTrap::DivideByZero);
    }
    if quotient_overflows(kind, a, b) {
        return Err(NumTrap::Overflow);
    }
    Ok(rest(kind, a, b))
}

fn and(kind: Kind, a: i128, b: i128) -> Result<i128, NumTrap>
    ensures { result ≡ value Bin.And kind a b }
{
    Ok(value_of_bits(kind, remainder(kind, a) & remainder(kind, b)))
}

fn or(kind: Kind, a: i128, b: i128) -> Result<i128, NumTrap>
    ensures { result ≡ value Bin.Or kind a b }
{
    Ok(value_of_bits(kind, remainder(kind, a) | remainder(kind, b)))
}

fn exclusive_or(kind: Kind, a: i128, b: i128) -> Result<i128, NumTrap>
    ensures { result ≡ value Bin.Xor kind a b }
{
    Ok(value_of_bits(kind, remainder(kind, a) ^ remainder(kind, b)))
}

/// Whether the right operand of a shift is neither negative nor the width or more.
fn is_distance(kind: Kind, b: i128) -> bool
    ensures { result ≡ is_distance_of kind b }
{
    0 <= b && b < i128::from(bits(kind))
}

fn can_shift_left(kind: Kind, a: i128, b: i128) -> bool
    ensures { result ≡ may_shift_left kind a b }
{
    is_distance(kind, b) && !(is_signed(kind) && a < 0)
}

/// The exact number shifted left, below 2^127.
fn shifted_left(kind: Kind, a: i128, b: i128) -> u128
    requires left { IsTrue (is_held kind a) }
    requires can_shift { may_shift_left kind a b ≡ true }
    ensures { pos result ≡ a *ℤ pos (2 ^ unsigned_abs b) }
{
    (a as u128) << (b as u32)
}

/// The number shifted right, rounded down.
fn shifted_right(kind: Kind, a: i128, b: i128) -> i128
    requires { is_distance_of kind b ≡ true }
    ensures { result ≡ int_shr a (unsigned_abs b) }
{
    a >> (b as u32)
}

fn shift_left(kind: Kind, a: i128, b: i128) -> Result<i128, NumTrap>
    requires { IsTrue (is_held kind a) }
    ensures { result ≡ value Bin.Shl kind a b }
{
    if can_shift_left(kind, a, b) {
        given_natural(kind, shifted_left(kind, a, b), NumTrap::Shift)
    } else {
        Err(NumTrap::Shift)
    }
}

fn shift_right(kind: Kind, a: i128, b: i128) -> Result<i128, NumTrap>
    ensures { result ≡ value Bin.Shr kind a b }
{
    if is_distance(kind, b) {
        Ok(shifted_right(kind, a, b))
    } else {
        Err(NumTrap::Shift)
    }
}

fn less(kind: Kind, a: i128, b: i128) -> Result<i128, NumTrap>
    ensures { result ≡ value Bin.Lt kind a b }
{
    Ok(truth(a < b))
}

fn at_most(kind: Kind, a: i128, b: i128) -> Result<i128, NumTrap>
    ensures { result ≡ value Bin.Le kind a b }
{
    Ok(truth(a <= b))
}

fn greater(kind: Kind, a: i128, b: i128) -> Result<i128, NumTrap>
    ensures { result ≡ value Bin.Gt kind a b }
{
    Ok(truth(a > b))
}

fn at_least(kind: Kind, a: i128, b: i128) -> Result<i128, NumTrap>
    ensures { result ≡ value Bin.Ge kind a b }
{
    Ok(truth(a >= b))
}

fn equal(kind: Kind, a: i128, b: i128) -> Result<i128, NumTrap>
    ensures { result ≡ value Bin.Eq kind a b }
{
    Ok(truth(a == b))
}

fn unequal(kind: Kind, a: i128, b: i128) -> Result<i128, NumTrap>
    ensures { result ≡ value Bin.Ne kind a b }
{
    Ok(truth(a != b))
}

fn both(kind: Kind, a: i128, b: i128) -> Result<i128, NumTrap>
    ensures { result ≡ value Bin.LogAnd kind a b }
{
    Ok(truth(!is_zero(a) && !is_zero(b)))
}

fn either(kind: Kind, a: i128, b: i128) -> Result<i128, NumTrap>
    ensures { result ≡ value Bin.LogOr kind a b }
{
    Ok(truth(!is_zero(a) || !is_zero(b)))
}

/// One arm for each operator and each kind, in which both are known.
macro_rules! table {
    ($op:ident, $kind:ident, $a:ident, $b:ident; $($name:ident => $operation:ident),+) => {
        match $op {
            $(Bin::$name => table!($operation, $kind, $a, $b),)+
        }
    };
    ($operation:ident, $kind:ident, $a:ident, $b:ident) => {
        match $kind {
            Kind::I8 => $operation(Kind::I8, $a, $b),
            Kind::U8 => $operation(Kind::U8, $a, $b),
            Kind::I16 => $operation(Kind::I16, $a, $b),
            Kind::U16 => $operation(Kind::U16, $a, $b),
            Kind::I32 => $operation(Kind::I32, $a, $b),
            Kind::U32 => $operation(Kind::U32, $a, $b),
            Kind::I64 => $operation(Kind::I64, $a, $b),
            Kind::U64 => $operation(Kind::U64, $a, $b),
        }
    };
}

/// The value of `a op b` in the kind of both operands, or why it has none. The right operand of a shift
/// may be of any kind.
pub fn binary(op: Bin, kind: Kind, a: i128, b: i128) -> Result<i128, NumTrap>
    requires left { IsTrue (is_held kind a) }
    requires right { CanBeRight op kind b }
    ensures { result ≡ value op kind a b }
{
    table!(op, kind, a, b;
        Add => add,
        Sub => subtract,
        Mul => multiply,
        Div => divide,
        Rem => take_rest,
        And => and,
        Or => or,
        Xor => exclusive_or,
        Shl => shift_left,
        Shr => shift_right,
        Lt => less,
        Le => at_most,
        Gt => greater,
        Ge => at_least,
        Eq => equal,
        Ne => unequal,
        LogAnd => both,
        LogOr => either)
}
