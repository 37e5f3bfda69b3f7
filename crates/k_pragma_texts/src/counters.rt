//! The variable that a loop's step counts.
ghost use Rattle.std.specs.Prelude.{◌≡◌};
ghost use Rattle.k_marks_meaning.specs.Loops.{adds, counter, counter_of, is_nonzero, read_if};
ghost use Rattle.k_pragma_texts.specs.Actions.{counted_by};

use crate::actions::variable_of;
use k_marks_meaning::Read;
use k_num::{Bin, Box};
use k_types_meaning::{Change, TExpr};

/// Whether a change adds a number or takes one away.
fn adds(change: Change) -> bool
    ensures { result ≡ adds change }
{
    match change {
        Change::Number(op, _) => matches!(op, Bin::Add | Bin::Sub),
        Change::Forward | Change::Back => false,
    }
}

/// Whether an expression is a number other than 0.
fn is_nonzero(expr: &TExpr) -> bool
    ensures { result ≡ is_nonzero expr.now }
{
    match expr {
        TExpr::Number { value, .. } => *value != 0,
        _ => false,
    }
}

/// The variable that an expression is, where this holds.
fn read_if(holds: bool, expr: &TExpr) -> Option<Read>
    ensures { result ≡ read_if holds expr.now }
{
    if holds { variable_of(expr) } else { None }
}

/// The variable that a step counts.
fn counter_of(step: &TExpr) -> Option<Read>
    ensures { result ≡ counter_of step.now }
{
    match step {
        TExpr::Post { change, of, .. } | TExpr::Pre { change, of, .. } => {
            read_if(adds(*change), of.get())
        }
        TExpr::AssignBy {
            change,
            left,
            right,
            ..
        } => read_if(adds(*change) && is_nonzero(right.get()), left.get()),
        _ => None,
    }
}

/// The variable that a step counts that may be left out.
fn counter(step: &Option<Box<TExpr>>) -> Option<Read>
    ensures { result ≡ counter step.now }
{
    match step {
        None => None,
        Some(step) => counter_of(step.get()),
    }
}

/// The variable that a loop's step counts.
pub(crate) fn counted_by(step: &Option<Box<TExpr>>) -> Option<u32>
    ensures { result ≡ counted_by step.now }
{
    match counter(step) {
        None => None,
        Some(read) => Some(read.variable),
    }
}
