//! Integer constant expressions (C17 6.6p6), over typed expressions.
ghost use Rattle.std.specs.Prelude.{◌≡◌, IfOk, if◌then◌else◌, Some, pos};
ghost use Rattle.k_num.specs.Arithmetic.{is_zero as equals_zero, unary_value, value};
ghost use Rattle.k_types_meaning.specs.Constants as rules;
ghost use Rattle.k_types_objects.specs.Distances.{right_kind as right_kind_of};

use k_num::{Bin, Kind, NoMemory, NumTrap, Un, binary, convert, holds, unary};
use k_types_meaning::{TExpr, TType};

/// The value of an integer constant expression, and none of any other expression (C17 6.6p6). That a number lies
/// outside its kind, which no typed tree has, counts as want of memory.
#[tactic(auto, unfolding(k_types_meaning::specs::Constants::constant))]
pub fn constant(e: &TExpr) -> Result<Option<i128>, NoMemory>
    ensures { IfOk result (λ value. value ≡ rules.constant e.now) }
{
    if has_form(e) { value_of(e) } else { Ok(None) }
}

/// Whether an expression has the form of an integer constant expression.
fn has_form(e: &TExpr) -> bool
    ensures { result ≡ rules.has_form e.now }
{
    match e {
        TExpr::Number { .. } => true,
        TExpr::Plus { of, .. } => has_form(of.get()),
        TExpr::Unary { of, .. } => has_form(of.get()),
        TExpr::Convert { of, .. } => has_form(of.get()),
        TExpr::Cast { node, of } => has_form(of.get()) && is_number(node.of),
        TExpr::Binary { left, right, .. } => has_form(left.get()) && has_form(right.get()),
        TExpr::Both { left, right, .. } => has_form(left.get()) && has_form(right.get()),
        TExpr::Either { left, right, .. } => has_form(left.get()) && has_form(right.get()),
        TExpr::Cond {
            node,
            test,
            then: first,
            other: second,
        } => {
            has_form(test.get())
                && (has_form(first.get()) && (has_form(second.get()) && is_number(node.of)))
        }
        _ => false,
    }
}

/// Whether a type is that of a number.
fn is_number(of: TType) -> bool
    ensures { result ≡ rules.is_number of }
{
    match of {
        TType::Number(_) => true,
        TType::Void | TType::Pointer(_) => false,
    }
}

/// The value of an expression of that form, none where a trap leaves none.
fn value_of(e: &TExpr) -> Result<Option<i128>, NoMemory>
    ensures { IfOk result (λ value. value ≡ rules.value_of e.now) }
{
    match e {
        TExpr::Number { value, .. } => Ok(Some(*value)),
        TExpr::Plus { of, .. } => value_of(of.get()),
        TExpr::Unary { op, kind, of, .. } => on_one(*op, *kind, value_of(of.get())?),
        TExpr::Convert { node, of } => Ok(in_type(node.of, value_of(of.get())?)),
        TExpr::Cast { node, of } => Ok(in_type(node.of, value_of(of.get())?)),
        TExpr::Binary {
            op,
            kind,
            left,
            right,
            ..
        } => on_two(*op, *kind, value_of(left.get())?, value_of(right.get())?),
        TExpr::Both { left, right, .. } => {
            Ok(both(value_of(left.get())?, value_of(right.get())?))
        }
        TExpr::Either { left, right, .. } => {
            Ok(either(value_of(left.get())?, value_of(right.get())?))
        }
        TExpr::Cond {
            test,
            then: first,
            other: second,
            ..
        } => Ok(chosen(
            value_of(test.get())?,
            value_of(first.get())?,
            value_of(second.get())?,
        )),
        _ => Ok(None),
    }
}

/// What an operation gives, none where it traps.
fn untrapped(outcome: Result<i128, NumTrap>) -> Option<i128>
    ensures { result ≡ rules.untrapped outcome }
{
    match outcome {
        Ok(value) => Some(value),
        Err(_) => None,
    }
}

/// A unary operation, where its operand has a value.
fn on_one(op: Un, kind: Kind, a: Option<i128>) -> Result<Option<i128>, NoMemory>
    ensures { IfOk result (λ value. value ≡ rules.with_one a (λ x. rules.untrapped (unary_value op kind x))) }
{
    let Some(a) = a else {
        return Ok(None);
    };
    if !holds(kind, a) {
        return Err(NoMemory);
    }
    Ok(untrapped(unary(op, kind, a)))
}

/// A binary operation, where both operands have values.
fn on_two(op: Bin, kind: Kind, a: Option<i128>, b: Option<i128>) -> Result<Option<i128>, NoMemory>
    ensures { IfOk result (λ found. found ≡ rules.with_two a b (λ x y. rules.untrapped (value op kind x y))) }
{
    let Some(a) = a else {
        return Ok(None);
    };
    let Some(b) = b else {
        return Ok(None);
    };
    operated(op, kind, a, b)
}

/// A binary operation on two values.
#[tactic(auto, using(crate::proofs::Distances::can_be_right))]
fn operated(op: Bin, kind: Kind, a: i128, b: i128) -> Result<Option<i128>, NoMemory>
    ensures { IfOk result (λ found. found ≡ rules.untrapped (value op kind a b)) }
{
    if !holds(kind, a) || !holds(right_kind(op, kind, b), b) {
        return Err(NoMemory);
    }
    Ok(untrapped(binary(op, kind, a, b)))
}

/// The kind that has to hold the right operand: that of a shift may be of any kind.
fn right_kind(op: Bin, kind: Kind, b: i128) -> Kind
    ensures { result ≡ right_kind_of op kind b }
{
    match op {
        Bin::Shl | Bin::Shr => widest(b),
        _ => kind,
    }
}

/// The kind of the largest numbers of a sign.
fn widest(b: i128) -> Kind
    ensures { result ≡ right_kind_of Bin.Shl Kind.U64 b }
{
    if b < 0 { Kind::I64 } else { Kind::U64 }
}

/// A value in the kind of a type.
fn in_type(of: TType, a: Option<i128>) -> Option<i128>
    ensures { result ≡ rules.with_one a (rules.in_type of) }
{
    let a = a?;
    match of {
        TType::Number(kind) => Some(convert(kind, a)),
        TType::Void | TType::Pointer(_) => None,
    }
}

/// Whether a value is 0.
fn is_zero(a: i128) -> bool
    ensures { result ≡ equals_zero a }
{
    a == 0
}

/// 0 or 1, by whether a value is 0.
fn truth_of(a: i128) -> Option<i128>
    ensures { result ≡ rules.truth_of a }
{
    if is_zero(a) { Some(0) } else { Some(1) }
}

/// `&&`, which needs its right side only where the left one is not 0 (C17 6.5.13p4).
fn both(a: Option<i128>, b: Option<i128>) -> Option<i128>
    ensures { result ≡ rules.with_one a (λ x. if equals_zero x then Some (pos 0) else rules.with_one b rules.truth_of) }
{
    let left = a?;
    if is_zero(left) {
        return Some(0);
    }
    truth_of(b?)
}

/// `||`, which needs its right side only where the left one is 0 (C17 6.5.14p4).
fn either(a: Option<i128>, b: Option<i128>) -> Option<i128>
    ensures { result ≡ rules.with_one a (λ x. if equals_zero x then rules.with_one b rules.truth_of else Some (pos 1)) }
{
    let left = a?;
    if is_zero(left) {
        return truth_of(b?);
    }
    Some(1)
}

/// `?:`, which needs the side that its test chooses (C17 6.5.15p4).
fn chosen(test: Option<i128>, a: Option<i128>, b: Option<i128>) -> Option<i128>
    ensures { result ≡ rules.with_one test (λ x. if equals_zero x then b else a) }
{
    let test = test?;
    if is_zero(test) { b } else { a }
}
