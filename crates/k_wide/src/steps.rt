//! Steps of a variable: what adds to it or takes away from it.
ghost use Rattle.std.specs.Prelude.{◌≡◌, Option, option_map};
ghost use Rattle.std.specs.Option.{option_copied};
ghost use Rattle.k_types_meaning.specs.declared.tree.expression.TExpr.{out-TExpr};
ghost use Rattle.k_marks_meaning.specs.Loops.{adds};
ghost use Rattle.k_marks_meaning.specs.Reductions.{variable_of, read_of, read_again};
ghost use Rattle.k_wide.specs.Lent.{step_as};
ghost use Rattle.k_wide_meaning.specs.Steps.{step_if, either_step, is_sum, is_plus, sum_step, unit_step, step_of, option_step, compares, compared_step, step_in_test, option_test_step};

use crate::actions::unconverted;
use k_marks_meaning::Read;
use k_num::{Bin, Box};
use k_types_meaning::{Change, TExpr};

/// A step: the variable, as it is read there, and the number by which it changes; none is 1.
#[derive(Clone, Copy)]
pub struct Stepping<'a> {
    pub read: Read,
    pub by: Option<&'a TExpr>,
}

/// Whether a change adds a number or takes one away.
fn adds(change: Change) -> bool
    ensures { result ≡ adds change }
{
    match change {
        Change::Number(op, _) => matches!(op, Bin::Add | Bin::Sub),
        Change::Forward | Change::Back => false,
    }
}

/// The variable that an expression is.
fn variable_of(expr: &TExpr) -> Option<Read>
    ensures { result ≡ variable_of expr.now }
{
    match expr {
        TExpr::Variable { node, variable } => Some(Read {
            variable: *variable,
            node: node.number,
        }),
        _ => None,
    }
}

/// The variable that an operand is in the source, where it may be converted.
fn read_of(expr: &TExpr) -> Option<Read>
    ensures { result ≡ read_of expr.now }
{
    match expr {
        TExpr::Variable { node, variable } => Some(Read {
            variable: *variable,
            node: node.number,
        }),
        TExpr::Convert { of, .. } => variable_of(of.get()),
        _ => None,
    }
}

/// The second read, where both are of one variable.
fn read_again(first: Option<Read>, second: Option<Read>) -> Option<Read>
    ensures { result ≡ read_again first second }
{
    let first = first?;
    let second = second?;
    if first.variable == second.variable {
        Some(second)
    } else {
        None
    }
}

/// The step of a variable that is read so, where this holds.
fn step_if<'a>(holds: bool, by: Option<&'a TExpr>, read: Option<Read>) -> Option<Stepping<'a>>
    ensures { option_map step_as result ≡ step_if holds (option_copied by.entry) read }
{
    if holds {
        match read {
            None => None,
            Some(read) => Some(Stepping { read, by }),
        }
    } else {
        None
    }
}

/// The first of two steps that there is.
fn either_step<'a>(
    first: Option<Stepping<'a>>,
    second: Option<Stepping<'a>>,
) -> Option<Stepping<'a>>
    ensures { option_map step_as result ≡ either_step (option_map step_as first.entry) (option_map step_as second.entry) }
{
    match first {
        None => second,
        Some(step) => Some(step),
    }
}

/// Whether an operator is `+` or `-`.
fn is_sum(op: Bin) -> bool
    ensures { result ≡ is_sum op }
{
    matches!(op, Bin::Add | Bin::Sub)
}

/// Whether an operator is `+`.
fn is_plus(op: Bin) -> bool
    ensures { result ≡ is_plus op }
{
    matches!(op, Bin::Add)
}

/// The step that the assignment of this value to a variable is.
fn sum_step(read: Option<Read>, right: &TExpr) -> Option<Stepping<'_>>
    ensures { option_map step_as result ≡ sum_step read (out-TExpr right.now) }
{
    match right {
        TExpr::Binary {
            op,
            left,
            right,
            ..
        } => either_step(
            step_if(
                is_sum(*op),
                Some(right.get()),
                read_again(read, read_of(left.get())),
            ),
            step_if(
                is_plus(*op),
                Some(left.get()),
                read_again(read, read_of(right.get())),
            ),
        ),
        _ => None,
    }
}

/// The step of `v++`, `++v`, `v--` and `--v`.
fn unit_step(expr: &TExpr) -> Option<Stepping<'_>>
    ensures { option_map step_as result ≡ unit_step (out-TExpr expr.now) }
{
    match expr {
        TExpr::Post { change, of, .. } | TExpr::Pre { change, of, .. } => {
            step_if(adds(*change), None, variable_of(of.get()))
        }
        _ => None,
    }
}

/// The step that an expression is, if it is one.
pub fn step_of(expr: &TExpr) -> Option<Stepping<'_>>
    ensures { option_map step_as result ≡ step_of expr.now }
{
    match expr {
        TExpr::Post { change, of, .. } | TExpr::Pre { change, of, .. } => {
            step_if(adds(*change), None, variable_of(of.get()))
        }
        TExpr::AssignBy {
            change,
            left,
            right,
            ..
        } => step_if(adds(*change), Some(right.get()), variable_of(left.get())),
        TExpr::Assign { left, right, .. } => {
            sum_step(variable_of(left.get()), unconverted(right.get()))
        }
        _ => None,
    }
}

/// Whether an operator compares.
fn compares(op: Bin) -> bool
    ensures { result ≡ compares op }
{
    matches!(
        op,
        Bin::Lt | Bin::Le | Bin::Gt | Bin::Ge | Bin::Eq | Bin::Ne
    )
}

/// The step of the left operand of a comparison.
fn compared_step(test: &TExpr) -> Option<Stepping<'_>>
    ensures { option_map step_as result ≡ compared_step (out-TExpr test.now) }
{
    match test {
        TExpr::Binary { op, left, .. } => {
            if compares(*op) {
                unit_step(unconverted(left.get()))
            } else {
                None
            }
        }
        _ => None,
    }
}

/// The step in a test: the whole test, or the left operand of the comparison that the test is.
pub fn step_in_test(test: &TExpr) -> Option<Stepping<'_>>
    ensures { option_map step_as result ≡ step_in_test test.now }
{
    either_step(unit_step(test), compared_step(test))
}

/// The step that an expression is that may be left out.
pub fn option_step(expr: &Option<Box<TExpr>>) -> Option<Stepping<'_>>
    ensures { option_map step_as result ≡ option_step expr.now }
{
    match expr {
        None => None,
        Some(expr) => step_of(expr.get()),
    }
}

/// The step in a test that may be left out.
pub fn option_test_step(test: &Option<Box<TExpr>>) -> Option<Stepping<'_>>
    ensures { option_map step_as result ≡ option_test_step test.now }
{
    match test {
        None => None,
        Some(test) => step_in_test(test.get()),
    }
}
