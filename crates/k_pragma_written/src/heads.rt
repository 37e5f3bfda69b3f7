//! The head of a `for`: whether its first part, its test and its step are of one variable, written bare.
ghost use Rattle.std.specs.Prelude.{◌≡◌};
ghost use Rattle.k_pragma_written.specs.Heads as spec;

use k_num::Box;
use k_tree::{Declarator, Expr, First, Init, Mark};

/// Whether an expression is this name.
fn is_name(name: &str, expr: &Expr) -> bool
    ensures { result ≡ spec.is_name name.now expr.now }
{
    match expr {
        Expr::Name { name: it, .. } => it.as_str() == name,
        _ => false,
    }
}

/// Whether an expression is a binary one with this name on the left.
fn tests(name: &str, expr: &Expr) -> bool
    ensures { result ≡ spec.tests name.now expr.now }
{
    match expr {
        Expr::Binary { left, .. } => is_name(name, left.get()),
        _ => false,
    }
}

/// Whether an expression steps this name.
fn steps(name: &str, expr: &Expr) -> bool
    ensures { result ≡ spec.steps name.now expr.now }
{
    match expr {
        Expr::Post { of, .. } | Expr::Pre { of, .. } => is_name(name, of.get()),
        Expr::Assign { left, .. } => is_name(name, left.get()),
        _ => false,
    }
}

/// Whether a test that may be left out is of this name.
fn is_tested(name: &str, test: &Option<Box<Expr>>) -> bool
    ensures { result ≡ spec.is_tested name.now test.now }
{
    match test {
        None => false,
        Some(test) => tests(name, test.get()),
    }
}

/// Whether a step that may be left out is of this name.
fn is_stepped(name: &str, step: &Option<Box<Expr>>) -> bool
    ensures { result ≡ spec.is_stepped name.now step.now }
{
    match step {
        None => false,
        Some(step) => steps(name, step.get()),
    }
}

/// Whether test and step are of this name.
fn goes_on(name: &str, test: &Option<Box<Expr>>, step: &Option<Box<Expr>>) -> bool
    ensures { result ≡ spec.goes_on name.now test.now step.now }
{
    is_tested(name, test) && is_stepped(name, step)
}

/// Whether an expression is a name that test and step are of.
fn counts(left: &Expr, test: &Option<Box<Expr>>, step: &Option<Box<Expr>>) -> bool
    ensures { result ≡ spec.counts left.now test.now step.now }
{
    match left {
        Expr::Name { name, .. } => goes_on(name.as_str(), test, step),
        _ => false,
    }
}

/// Whether an expression assigns such a name.
fn begins(value: &Expr, test: &Option<Box<Expr>>, step: &Option<Box<Expr>>) -> bool
    ensures { result ≡ spec.begins value.now test.now step.now }
{
    match value {
        Expr::Assign {
            op: Mark::Equal,
            left,
            ..
        } => counts(left.get(), test, step),
        _ => false,
    }
}

/// Whether an initialiser is an expression.
fn is_value(init: &Option<Init>) -> bool
    ensures { result ≡ spec.is_value init.now }
{
    matches!(init, Some(Init::One { .. }))
}

/// Whether these are one declarator, of such a name.
fn declares(list: &[Declarator], test: &Option<Box<Expr>>, step: &Option<Box<Expr>>) -> bool
    ensures { result ≡ spec.declares list.now test.now step.now }
{
    match list {
        [one] => is_value(&one.init) && goes_on(one.name.as_str(), test, step),
        _ => false,
    }
}

/// Whether the head of a `for` is of one variable, written bare.
pub(crate) fn is_bare(first: &First, test: &Option<Box<Expr>>, step: &Option<Box<Expr>>) -> bool
    ensures { result ≡ spec.is_bare first.now test.now step.now }
{
    match first {
        First::Nothing => false,
        First::Value(value) => begins(value, test, step),
        First::Declare(_, list) => declares(list.as_slice(), test, step),
    }
}
