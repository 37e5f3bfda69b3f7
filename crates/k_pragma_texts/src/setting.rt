//! Assignments `v = e` where e does not name v.
ghost use Rattle.std.specs.Prelude.{◌≡◌, IfOk};
ghost use Rattle.k_pragma_texts.specs.Declarations.{first_sets};
ghost use Rattle.k_pragma_texts.specs.Occurrences.{is_of, names, set_unless_named, sets};

use crate::actions::variable_of;
use crate::expressions::occurrences_of;
use crate::occurrence::Occurrence;
use k_marks_meaning::Read;
use k_num::NoMemory;
use k_types_meaning::{TExpr, TFirst};
use std::alloc::Global;

/// Whether an occurrence is of this variable.
fn is_of(occurrence: &Occurrence, variable: u32) -> bool
    ensures { result ≡ is_of variable occurrence.now }
{
    occurrence.variable == variable
}

/// Whether an expression names a variable.
fn names(alloc: Global, variable: u32, expr: &TExpr) -> Result<bool, NoMemory>
    ensures { IfOk result (λ named. named ≡ names variable expr.now) }
{
    let occurs = occurrences_of(alloc, expr)?;
    Ok(occurs.iter().any(|occurrence| is_of(occurrence, variable)))
}

/// The variable, where the expression does not name it.
fn set_unless_named(
    alloc: Global,
    variable: Option<Read>,
    expr: &TExpr,
) -> Result<Option<u32>, NoMemory>
    ensures { IfOk result (λ set. set ≡ set_unless_named variable expr.now) }
{
    match variable {
        None => Ok(None),
        Some(read) => {
            if names(alloc, read.variable, expr)? {
                Ok(None)
            } else {
                Ok(Some(read.variable))
            }
        }
    }
}

/// The variable v, where an expression is `v = e` and e does not name v.
pub(crate) fn sets(alloc: Global, expr: &TExpr) -> Result<Option<u32>, NoMemory>
    ensures { IfOk result (λ set. set ≡ sets expr.now) }
{
    match expr {
        TExpr::Assign { left, right, .. } => {
            set_unless_named(alloc, variable_of(left.get()), right.get())
        }
        _ => Ok(None),
    }
}

/// The same of the first part of a `for`.
pub(crate) fn first_sets(alloc: Global, first: &TFirst) -> Result<Option<u32>, NoMemory>
    ensures { IfOk result (λ set. set ≡ first_sets first.now) }
{
    match first {
        TFirst::Nothing | TFirst::Declare(_) => Ok(None),
        TFirst::Value(value) => sets(alloc, value),
    }
}
