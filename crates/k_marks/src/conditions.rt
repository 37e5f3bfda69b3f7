//! The parts of the five conditions of a counted loop.
ghost use Rattle.std.specs.Prelude.{◌≡◌, nat_eq, not, ◌&&◌, count_by};
ghost use Rattle.std.specs.Option.{option_copied};
ghost use Rattle.k_marks_meaning.specs.Loops.{is_number, is_number_register, is_register, assigns_it, adds, is_nonzero, read_if, counter_of, counter, tests, reads, bound_in, bound_of, is_fixed};
ghost use Rattle.k_marks.specs.Known.{known_stays};

use crate::actions::{read_of, variable_of};
use crate::known::{Entry, look};
use k_marks_meaning::{Read, Use};
use k_num::{Bin, Box};
use k_types_meaning::{Change, TExpr, TType, TVariable};

/// Whether a type is that of a whole number.
fn is_number(of: TType) -> bool
    ensures { result ≡ is_number of }
{
    match of {
        TType::Number(_) => true,
        TType::Void | TType::Pointer(_) => false,
    }
}

/// Whether a variable is a whole number in a register.
fn is_number_register(variable: &TVariable) -> bool
    ensures { result ≡ is_number_register variable.now }
{
    is_number(variable.of) && variable.elements == 0
}

/// Whether the variable of this number is a whole number in a register.
pub(crate) fn is_register(variables: &[TVariable], variable: u32) -> bool
    ensures { result ≡ is_register variables.now variable }
{
    match variables.get(variable as usize) {
        Some(variable) => is_number_register(variable),
        None => false,
    }
}

/// Whether this assigns the variable.
fn assigns_it(what: Use, variable: u32) -> bool
    ensures { result ≡ assigns_it variable what }
{
    match what {
        Use::Names(_) | Use::Declares(_) => false,
        Use::Assigns(assigned) => assigned == variable,
        Use::Reduces(by) => by.variable == variable,
    }
}

/// Whether a change adds a number or takes one away.
fn adds(change: Change) -> bool
    ensures { result ≡ adds change }
{
    match change {
        Change::Number(op, _) => matches!(op, Bin::Add | Bin::Sub),
        Change::Forward | Change::Back => false,
    }
}

/// Whether an expression is a number other than 0.
fn is_nonzero(expr: &TExpr) -> bool
    ensures { result ≡ is_nonzero expr.now }
{
    match expr {
        TExpr::Number { value, .. } => *value != 0,
        _ => false,
    }
}

/// The variable that an expression is, where this holds.
fn read_if(holds: bool, expr: &TExpr) -> Option<Read>
    ensures { result ≡ read_if holds expr.now }
{
    if holds { variable_of(expr) } else { None }
}

/// The variable that a step counts.
fn counter_of(step: &TExpr) -> Option<Read>
    ensures { result ≡ counter_of step.now }
{
    match step {
        TExpr::Post { change, of, .. } | TExpr::Pre { change, of, .. } => {
            read_if(adds(*change), of.get())
        }
        TExpr::AssignBy {
            change,
            left,
            right,
            ..
        } => read_if(adds(*change) && is_nonzero(right.get()), left.get()),
        _ => None,
    }
}

/// The variable that a step counts that may be left out.
pub(crate) fn counter(step: &Option<Box<TExpr>>) -> Option<Read>
    ensures { result ≡ counter step.now }
{
    match step {
        None => None,
        Some(step) => counter_of(step.get()),
    }
}

/// Whether a counted loop may be tested by this operator.
fn tests(op: Bin) -> bool
    ensures { result ≡ tests op }
{
    matches!(op, Bin::Lt | Bin::Le | Bin::Gt | Bin::Ge | Bin::Ne)
}

/// Whether this is a read of the variable.
fn reads(variable: u32, read: Option<Read>) -> bool
    ensures { result ≡ reads variable read }
{
    match read {
        None => false,
        Some(read) => read.variable == variable,
    }
}

/// The bound of this variable in a test.
fn bound_in(variable: u32, test: &TExpr) -> Option<&TExpr>
    ensures { option_copied result ≡ bound_in variable test.now }
{
    match test {
        TExpr::Binary {
            op,
            left,
            right,
            ..
        } => {
            if tests(*op) && reads(variable, read_of(left.get())) {
                Some(right.get())
            } else {
                None
            }
        }
        _ => None,
    }
}

/// The bound of this variable in a test that may be left out.
pub(crate) fn bound_of(variable: u32, test: &Option<Box<TExpr>>) -> Option<&TExpr>
    ensures { option_copied result ≡ bound_of variable test.now }
{
    match test {
        None => None,
        Some(test) => bound_in(variable, test.get()),
    }
}

/// Whether one alone of what happens assigns the variable.
pub(crate) fn is_assigned_once(uses: &[Use], variable: u32) -> bool
    ensures { result ≡ nat_eq (count_by (assigns_it variable) uses.now) 1 }
{
    uses.iter()
        .filter(|what| assigns_it(**what, variable))
        .count()
        == 1
}

/// Whether a variable keeps its value in the loop, by what is known of it.
fn stays(variables: &[TVariable], table: &[Entry], turn: u64, variable: u32) -> bool
    ensures { result ≡ known_stays variables.now table.now turn variable }
{
    is_register(variables, variable) && !look(table, turn, variable).assigned
}

/// Whether an expression is built by operators without side effect from numbers and from variables that
/// keep their values.
pub(crate) fn is_fixed(expr: &TExpr, variables: &[TVariable], table: &[Entry], turn: u64) -> bool
    ensures { result ≡ is_fixed (known_stays variables.now table.now turn) expr.now }
{
    match expr {
        TExpr::Number { .. } => true,
        TExpr::Variable { variable, .. } => stays(variables, table, turn, *variable),
        TExpr::Plus { of, .. }
        | TExpr::Unary { of, .. }
        | TExpr::Convert { of, .. }
        | TExpr::Cast { of, .. } => is_fixed(of.get(), variables, table, turn),
        TExpr::Binary { left, right, .. }
        | TExpr::Both { left, right, .. }
        | TExpr::Either { left, right, .. }
        | TExpr::Comma { left, right, .. } => {
            is_fixed(left.get(), variables, table, turn)
                && is_fixed(right.get(), variables, table, turn)
        }
        TExpr::Cond {
            test,
            then,
            other,
            ..
        } => {
            is_fixed(test.get(), variables, table, turn)
                && is_fixed(then.get(), variables, table, turn)
                && is_fixed(other.get(), variables, table, turn)
        }
        _ => false,
    }
}
