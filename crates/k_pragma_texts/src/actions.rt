//! Where variables occur in expression statements: they may reduce one.
ghost use Rattle.std.specs.Prelude.{◌≡◌, ◌++◌, OnOk};
ghost use Rattle.k_marks_meaning.specs.Reductions.{change_group, group_of, read_again, read_of, reduction, unconverted, variable_of};
ghost use Rattle.k_pragma_texts.specs.Actions.{action_occurs, assigned_occurs, reduced_occurs};

use crate::expressions::note_expr;
use crate::occurrence::{How, Occurrence};
use k_marks_meaning::{Group, Read, Reduction};
use k_num::{Bin, NoMemory};
use k_types_meaning::{Change, TExpr};

/// The group of an operator, if it has one.
fn group_of(op: Bin) -> Option<Group>
    ensures { result ≡ group_of op }
{
    match op {
        Bin::Add | Bin::Sub => Some(Group::Sums),
        Bin::Mul => Some(Group::Products),
        Bin::And => Some(Group::Ands),
        Bin::Or => Some(Group::Ors),
        Bin::Xor => Some(Group::Xors),
        _ => None,
    }
}

/// The group of the operator of a compound assignment.
fn change_group(change: Change) -> Option<Group>
    ensures { result ≡ change_group change }
{
    match change {
        Change::Number(op, _) => group_of(op),
        Change::Forward | Change::Back => None,
    }
}

/// The variable that an expression is.
pub(crate) fn variable_of(expr: &TExpr) -> Option<Read>
    ensures { result ≡ variable_of expr.now }
{
    match expr {
        TExpr::Variable { node, variable } => Some(Read {
            variable: *variable,
            node: node.number,
        }),
        _ => None,
    }
}

/// The variable that an operand is in the source, where it may be converted.
fn read_of(expr: &TExpr) -> Option<Read>
    ensures { result ≡ read_of expr.now }
{
    match expr {
        TExpr::Variable { node, variable } => Some(Read {
            variable: *variable,
            node: node.number,
        }),
        TExpr::Convert { of, .. } => variable_of(of.get()),
        _ => None,
    }
}

/// The second read, where both are of one variable.
fn read_again(first: Option<Read>, second: Option<Read>) -> Option<Read>
    ensures { result ≡ read_again first second }
{
    let first = first?;
    let second = second?;
    if first.variable == second.variable {
        Some(second)
    } else {
        None
    }
}

/// The reduction of a variable that is read so, by an operator of a group.
fn reduction(read: Option<Read>, group: Option<Group>) -> Option<Reduction>
    ensures { result ≡ reduction read group }
{
    let read = read?;
    let group = group?;
    Some(Reduction {
        variable: read.variable,
        group,
        read: read.node,
    })
}

/// An expression, or that of which it is the conversion.
fn unconverted(expr: &TExpr) -> &TExpr
    ensures { result.now ≡ unconverted expr.now }
{
    match expr {
        TExpr::Convert { of, .. } => of.get(),
        _ => expr,
    }
}

/// Notes a reduction and where variables occur in its other operand, or else where they occur in the whole expression.
fn note_reduced(
    whole: &TExpr,
    by: Option<Reduction>,
    other: &TExpr,
    occurs: &mut Vec<Occurrence>,
) -> Result<(), NoMemory>
    ensures { OnOk result (occurs.new.items ≡ occurs.old.items ++ reduced_occurs whole.now by other.now) }
{
    match by {
        None => note_expr(whole, occurs),
        Some(by) => {
            occurs.push(Occurrence {
                variable: by.variable,
                node: by.read,
                how: How::Reduces(by.group),
            })?;
            note_expr(other, occurs)
        }
    }
}

/// Notes where variables occur in `s = right`.
fn note_assigned(
    whole: &TExpr,
    read: Option<Read>,
    right: &TExpr,
    occurs: &mut Vec<Occurrence>,
) -> Result<(), NoMemory>
    ensures { OnOk result (occurs.new.items ≡ occurs.old.items ++ assigned_occurs whole.now read right.now) }
{
    match right {
        TExpr::Binary {
            op,
            left,
            right,
            ..
        } => {
            let by = reduction(read_again(read, read_of(left.get())), group_of(*op));
            note_reduced(whole, by, right.get(), occurs)
        }
        _ => note_expr(whole, occurs),
    }
}

/// Notes where variables occur in an expression statement.
pub(crate) fn note_action(expr: &TExpr, occurs: &mut Vec<Occurrence>) -> Result<(), NoMemory>
    ensures { OnOk result (occurs.new.items ≡ occurs.old.items ++ action_occurs expr.now) }
{
    match expr {
        TExpr::AssignBy {
            change,
            left,
            right,
            ..
        } => {
            let by = reduction(variable_of(left.get()), change_group(*change));
            note_reduced(expr, by, right.get(), occurs)
        }
        TExpr::Assign { left, right, .. } => {
            let read = variable_of(left.get());
            note_assigned(expr, read, unconverted(right.get()), occurs)
        }
        _ => note_expr(expr, occurs),
    }
}
