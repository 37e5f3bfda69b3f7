//! What expression statements do with variables: they may reduce one.
ghost use Rattle.std.specs.Prelude.{◌≡◌, ◌++◌, OnOk};
ghost use Rattle.k_marks_meaning.specs.Reductions.{group_of, change_group, variable_of, read_of, read_again, reduction, reduced_uses, unconverted, action_uses, simple_uses};

use crate::notes::note_expr;
use k_marks_meaning::{Group, Read, Reduction, Use};
use k_num::{Bin, NoMemory};
use k_types_meaning::{Change, TExpr};

/// The group of an operator, if it has one.
fn group_of(op: Bin) -> Option<Group>
    ensures { result ≡ group_of op }
{
    match op {
        Bin::Add | Bin::Sub => Some(Group::Sums),
        Bin::Mul => Some(Group::Products),
        Bin::And => Some(Group::Ands),
        Bin::Or => Some(Group::Ors),
        Bin::Xor => Some(Group::Xors),
        _ => None,
    }
}

/// The group of the operator of a compound assignment.
fn change_group(change: Change) -> Option<Group>
    ensures { result ≡ change_group change }
{
    match change {
        Change::Number(op, _) => group_of(op),
        Change::Forward | Change::Back => None,
    }
}

/// The variable that an expression is.
pub(crate) fn variable_of(expr: &TExpr) -> Option<Read>
    ensures { result ≡ variable_of expr.now }
{
    match expr {
        TExpr::Variable { node, variable } => Some(Read {
            variable: *variable,
            node: node.number,
        }),
        _ => None,
    }
}

/// The variable that an operand is in the source, where it may be converted.
pub(crate) fn read_of(expr: &TExpr) -> Option<Read>
    ensures { result ≡ read_of expr.now }
{
    match expr {
        TExpr::Variable { node, variable } => Some(Read {
            variable: *variable,
            node: node.number,
        }),
        TExpr::Convert { of, .. } => variable_of(of.get()),
        _ => None,
    }
}

/// The second read, where both are of one variable.
fn read_again(first: Option<Read>, second: Option<Read>) -> Option<Read>
    ensures { result ≡ read_again first second }
{
    let first = first?;
    let second = second?;
    if first.variable == second.variable {
        Some(second)
    } else {
        None
    }
}

/// The reduction of a variable that is read so, by an operator of a group.
fn reduction(read: Option<Read>, group: Option<Group>) -> Option<Reduction>
    ensures { result ≡ reduction read group }
{
    let read = read?;
    let group = group?;
    Some(Reduction {
        variable: read.variable,
        group,
        read: read.node,
    })
}

/// An expression, or that of which it is the conversion.
fn unconverted(expr: &TExpr) -> &TExpr
    ensures { result.now ≡ unconverted expr.now }
{
    match expr {
        TExpr::Convert { of, .. } => of.get(),
        _ => expr,
    }
}

/// Notes a reduction and what its other operand does, or else what the whole expression does.
fn note_reduced(
    whole: &TExpr,
    by: Option<Reduction>,
    other: &TExpr,
    uses: &mut Vec<Use>,
) -> Result<(), NoMemory>
    ensures { OnOk result (uses.new.items ≡ uses.old.items ++ reduced_uses whole.now by other.now) }
{
    match by {
        None => note_expr(whole, uses),
        Some(by) => {
            uses.push(Use::Reduces(by))?;
            note_expr(other, uses)
        }
    }
}

/// Notes what `s = right` does.
fn note_assigned(
    whole: &TExpr,
    read: Option<Read>,
    right: &TExpr,
    uses: &mut Vec<Use>,
) -> Result<(), NoMemory>
    ensures { OnOk result (uses.new.items ≡ uses.old.items ++ simple_uses whole.now read right.now) }
{
    match right {
        TExpr::Binary {
            op,
            left,
            right,
            ..
        } => {
            let by = reduction(read_again(read, read_of(left.get())), group_of(*op));
            note_reduced(whole, by, right.get(), uses)
        }
        _ => note_expr(whole, uses),
    }
}

/// Notes what an expression statement does.
pub(crate) fn note_action(expr: &TExpr, uses: &mut Vec<Use>) -> Result<(), NoMemory>
    ensures { OnOk result (uses.new.items ≡ uses.old.items ++ action_uses expr.now) }
{
    match expr {
        TExpr::AssignBy {
            change,
            left,
            right,
            ..
        } => {
            let by = reduction(variable_of(left.get()), change_group(*change));
            note_reduced(expr, by, right.get(), uses)
        }
        TExpr::Assign { left, right, .. } => {
            let read = variable_of(left.get());
            note_assigned(expr, read, unconverted(right.get()), uses)
        }
        _ => note_expr(expr, uses),
    }
}
