//! The canonical form of a loop, so far as the typed tree tells it.
ghost use Rattle.std.specs.Prelude.{◌≡◌, pos};
ghost use Rattle.std.specs.List.{list_all};
ghost use Rattle.k_num.specs.Kind.{is_held as held_number, is_signed as signed_kind};
ghost use Rattle.k_types_meaning.specs.Types.{same_kind};
ghost use Rattle.k_pragma_texts.specs.Canonical as spec;

use k_num::{Bin, Box, Kind, holds};
use k_types_meaning::{Change, TDeclarator, TExpr, TFirst, TInit, TType};

/// Whether a kind has at least 32 bits.
fn is_wide(kind: Kind) -> bool
    ensures { result ≡ spec.is_wide kind }
{
    match kind {
        Kind::I8 | Kind::U8 | Kind::I16 | Kind::U16 => false,
        Kind::I32 | Kind::U32 | Kind::I64 | Kind::U64 => true,
    }
}

/// Whether a kind has negative values.
fn is_signed(kind: Kind) -> bool
    ensures { result ≡ signed_kind kind }
{
    match kind {
        Kind::I8 | Kind::I16 | Kind::I32 | Kind::I64 => true,
        Kind::U8 | Kind::U16 | Kind::U32 | Kind::U64 => false,
    }
}

/// Whether two kinds are one.
fn is_same(one: Kind, other: Kind) -> bool
    ensures { result ≡ same_kind one other }
{
    one == other
}

/// Whether a type is that of the numbers of this kind.
fn is_of_kind(kind: Kind, of: TType) -> bool
    ensures { result ≡ spec.is_of_kind kind of }
{
    match of {
        TType::Number(number) => is_same(number, kind),
        TType::Void | TType::Pointer(_) => false,
    }
}

/// Whether an expression is itself a variable of this kind.
fn is_variable(kind: Kind, expr: &TExpr) -> bool
    ensures { result ≡ spec.is_variable kind expr.now }
{
    match expr {
        TExpr::Variable { node, .. } => is_of_kind(kind, node.of),
        _ => false,
    }
}

/// Whether an expression is converted, though the source writes no cast.
fn is_converted(expr: &TExpr) -> bool
    ensures { result ≡ spec.is_converted expr.now }
{
    match expr {
        TExpr::Convert { .. } => true,
        _ => false,
    }
}

/// Whether a variable is compared in its own kind, of at least 32 bits, with what has this kind without a conversion, or is a constant.
fn compares(kind: Kind, left: &TExpr, right: &TExpr) -> bool
    ensures { result ≡ spec.compares kind left.now right.now }
{
    is_wide(kind) && (is_variable(kind, left) && !is_converted(right))
}

/// Whether a step adds a number above 0, or takes one below 0 away.
fn goes_up(by: Change, number: &i128) -> bool
    ensures { result ≡ spec.goes_up by number.now }
{
    match by {
        Change::Number(Bin::Add, _) => 0 < *number,
        Change::Number(Bin::Sub, _) => *number < 0,
        _ => false,
    }
}

/// Whether a step takes a number above 0 away, or adds one below 0.
fn goes_down(by: Change, number: &i128) -> bool
    ensures { result ≡ spec.goes_down by number.now }
{
    match by {
        Change::Number(Bin::Add, _) => *number < 0,
        Change::Number(Bin::Sub, _) => 0 < *number,
        _ => false,
    }
}

/// Whether a number is 1 or -1.
fn is_one(number: &i128) -> bool
    ensures { result ≡ spec.is_one number.now }
{
    *number == 1 || *number == -1
}

/// Whether a step goes the way of a test by this operator.
fn goes_along(op: Bin, by: Change, number: &i128) -> bool
    ensures { result ≡ spec.goes_along op by number.now }
{
    match op {
        Bin::Lt | Bin::Le => goes_up(by, number),
        Bin::Gt | Bin::Ge => goes_down(by, number),
        Bin::Ne => is_one(number) && (goes_up(by, number) || goes_down(by, number)),
        _ => false,
    }
}

/// Whether a number is a value of a kind.
fn is_held(kind: Kind, number: &i128) -> bool
    ensures { result ≡ held_number kind number.now }
{
    holds(kind, *number)
}

/// Whether it does so by a number that the kind holds, and where that is unsigned by 1.
fn goes(op: Bin, kind: Kind, by: Change, number: &i128) -> bool
    ensures { result ≡ spec.goes op kind by number.now }
{
    goes_along(op, by, number) && (is_held(kind, number) && (is_signed(kind) || is_one(number)))
}

/// Whether a step by 1 does.
fn goes_by_one(op: Bin, kind: Kind, by: Change) -> bool
    ensures { result ≡ spec.goes op kind by (pos 1) }
{
    let one: i128 = 1;
    goes(op, kind, by, &one)
}

/// Whether a step by the number that an expression is does.
fn goes_by(op: Bin, kind: Kind, by: Change, expr: &TExpr) -> bool
    ensures { result ≡ spec.goes_by op kind by expr.now }
{
    match expr {
        TExpr::Number { value, .. } => goes(op, kind, by, value),
        _ => false,
    }
}

/// Whether a step does.
fn counts_along(op: Bin, kind: Kind, step: &TExpr) -> bool
    ensures { result ≡ spec.counts_along op kind step.now }
{
    match step {
        TExpr::Post { change, .. } | TExpr::Pre { change, .. } => goes_by_one(op, kind, *change),
        TExpr::AssignBy { change, right, .. } => goes_by(op, kind, *change, right.get()),
        _ => false,
    }
}

/// Whether a step that may be left out does.
fn steps_along(op: Bin, kind: Kind, step: &Option<Box<TExpr>>) -> bool
    ensures { result ≡ spec.steps_along op kind step.now }
{
    match step {
        None => false,
        Some(step) => counts_along(op, kind, step.get()),
    }
}

/// Whether this is a test of a canonical loop with this step.
fn is_tested_so(test: &TExpr, step: &Option<Box<TExpr>>) -> bool
    ensures { result ≡ spec.is_tested_so test.now step.now }
{
    match test {
        TExpr::Binary {
            op,
            kind,
            left,
            right,
            ..
        } => compares(*kind, left.get(), right.get()) && steps_along(*op, *kind, step),
        _ => false,
    }
}

/// The same of a test that may be left out.
fn is_tested(test: &Option<Box<TExpr>>, step: &Option<Box<TExpr>>) -> bool
    ensures { result ≡ spec.is_tested test.now step.now }
{
    match test {
        None => false,
        Some(test) => is_tested_so(test.get(), step),
    }
}

/// Whether an expression has no effect but its value.
fn is_effectless(expr: &TExpr) -> bool
    ensures { result ≡ spec.is_effectless expr.now }
{
    match expr {
        TExpr::Number { .. } | TExpr::Str { .. } | TExpr::Object { .. } | TExpr::Variable { .. } =>
            true,
        TExpr::Address { of, .. }
        | TExpr::Deref { of, .. }
        | TExpr::Plus { of, .. }
        | TExpr::Unary { of, .. }
        | TExpr::Convert { of, .. }
        | TExpr::Cast { of, .. } => is_effectless(of.get()),
        TExpr::Index {
            base: left,
            index: right,
            ..
        }
        | TExpr::Binary { left, right, .. }
        | TExpr::Both { left, right, .. }
        | TExpr::Either { left, right, .. }
        | TExpr::PtrCompare { left, right, .. }
        | TExpr::PtrDistance { left, right, .. }
        | TExpr::Comma { left, right, .. } => {
            is_effectless(left.get()) && is_effectless(right.get())
        }
        TExpr::Cond {
            test,
            then,
            other,
            ..
        } => {
            is_effectless(test.get()) && (is_effectless(then.get()) && is_effectless(other.get()))
        }
        _ => false,
    }
}

/// Whether an initialiser is an expression without effect.
fn init_effectless(init: &TInit) -> bool
    ensures { result ≡ spec.init_effectless init.now }
{
    match init {
        TInit::Value(value) => is_effectless(value),
        TInit::Nothing | TInit::Elements(_) => false,
    }
}

/// Whether a declarator has such an initialiser.
fn declares_effectless(declarator: &TDeclarator) -> bool
    ensures { result ≡ spec.declares_effectless declarator.now }
{
    init_effectless(&declarator.init)
}

/// Whether all these have such initialisers.
fn all_effectless(list: &[TDeclarator]) -> bool
    ensures { result ≡ list_all spec.declares_effectless list.now }
{
    list.iter()
        .all(|declarator| declares_effectless(declarator))
}

/// Whether an expression assigns the value of an expression without effect.
fn assigns_effectless(expr: &TExpr) -> bool
    ensures { result ≡ spec.assigns_effectless expr.now }
{
    match expr {
        TExpr::Assign { right, .. } => is_effectless(right.get()),
        _ => false,
    }
}

/// Whether a first part is of a value without effect.
fn begins_effectless(first: &TFirst) -> bool
    ensures { result ≡ spec.begins_effectless first.now }
{
    match first {
        TFirst::Nothing => false,
        TFirst::Value(value) => assigns_effectless(value),
        TFirst::Declare(list) => all_effectless(list.as_slice()),
    }
}

/// Whether a loop with this first part, test and step is canonical by its types.
pub(crate) fn is_canonical(
    first: &TFirst,
    test: &Option<Box<TExpr>>,
    step: &Option<Box<TExpr>>,
) -> bool
    ensures { result ≡ spec.is_canonical first.now test.now step.now }
{
    begins_effectless(first) && is_tested(test, step)
}
