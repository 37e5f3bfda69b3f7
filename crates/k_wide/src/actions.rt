//! What expression statements do with scalars: they may reduce one.
ghost use Rattle.std.specs.Prelude.{◌≡◌, ◌++◌, ◌∷◌, [], OnOk, IfOk};
ghost use Rattle.k_marks_meaning.specs.Reductions.{group_of, change_group, unconverted};
ghost use Rattle.k_wide_meaning.specs.Occurrences.{same_scalar, occurs_in};
ghost use Rattle.k_wide_meaning.specs.Reductions.{scalar_of, same_read, again, by_group, commuting, reduces_or, assigned_step, action_occurs};
ghost use Rattle.k_types_meaning.specs.declared.tree.expression.TExpr.{out-TExpr};

use crate::choices::note_choice;
use crate::comparisons::compared;
use crate::notes::note_expr;
use k_marks_meaning::Group;
use k_num::{Bin, NoMemory};
use k_types_meaning::{Change, TExpr};
use k_wide_meaning::{Occurrence, Reducing, Scalar, ScalarRead, WideGroup};
use std::alloc::Global;

/// The group of an operator, if it has one.
pub(crate) fn group_of(op: Bin) -> Option<Group>
    ensures { result ≡ group_of op }
{
    match op {
        Bin::Add | Bin::Sub => Some(Group::Sums),
        Bin::Mul => Some(Group::Products),
        Bin::And => Some(Group::Ands),
        Bin::Or => Some(Group::Ors),
        Bin::Xor => Some(Group::Xors),
        _ => None,
    }
}

/// The group of the operator of a compound assignment.
fn change_group(change: Change) -> Option<Group>
    ensures { result ≡ change_group change }
{
    match change {
        Change::Number(op, _) => group_of(op),
        Change::Forward | Change::Back => None,
    }
}

/// The operators of a group.
fn by_group(group: Option<Group>) -> Option<WideGroup>
    ensures { result ≡ by_group group }
{
    match group {
        None => None,
        Some(group) => Some(WideGroup::By(group)),
    }
}

/// The group of an operator that commutes.
fn commuting(op: Bin) -> Option<WideGroup>
    ensures { result ≡ commuting op }
{
    match op {
        Bin::Sub => None,
        _ => by_group(group_of(op)),
    }
}

/// The scalar that an expression is.
pub(crate) fn scalar_of(expr: &TExpr) -> Option<ScalarRead>
    ensures { result ≡ scalar_of expr.now }
{
    match expr {
        TExpr::Variable { node, variable } => Some(ScalarRead {
            scalar: Scalar::Variable(*variable),
            node: node.number,
        }),
        TExpr::Object { node, object } => Some(ScalarRead {
            scalar: Scalar::Object(*object),
            node: node.number,
        }),
        _ => None,
    }
}

/// Whether two scalars are one.
pub(crate) fn same_scalar(first: Scalar, second: Scalar) -> bool
    ensures { result ≡ same_scalar first second }
{
    match first {
        Scalar::Variable(m) => matches!(second, Scalar::Variable(n) if m == n),
        Scalar::Object(m) => matches!(second, Scalar::Object(n) if m == n),
    }
}

/// The second read, where both are of one scalar.
fn same_read(first: Option<ScalarRead>, second: Option<ScalarRead>) -> Option<ScalarRead>
    ensures { result ≡ same_read first second }
{
    let first = first?;
    let second = second?;
    if same_scalar(first.scalar, second.scalar) {
        Some(second)
    } else {
        None
    }
}

/// An expression, or that of which it is the conversion.
pub(crate) fn unconverted(expr: &TExpr) -> &TExpr
    ensures { result.now ≡ unconverted expr.now }
{
    match expr {
        TExpr::Convert { of, .. } => of.get(),
        _ => expr,
    }
}

/// The scalar that an operand is, where it is this one.
pub(crate) fn again(read: Option<ScalarRead>, expr: &TExpr) -> Option<ScalarRead>
    ensures { result ≡ again read expr.now }
{
    same_read(read, scalar_of(unconverted(expr)))
}

/// Notes a reduction and what its other operand does, or else what the whole expression does.
fn note_reduces_or(
    whole: &TExpr,
    beside: &TExpr,
    group: Option<WideGroup>,
    read: Option<ScalarRead>,
    found: &mut Vec<Occurrence>,
) -> Result<(), NoMemory>
    ensures { OnOk result (found.new.items ≡ found.old.items ++ reduces_or (occurs_in whole.now) (occurs_in beside.now) group read) }
{
    match read {
        None => note_expr(whole, found),
        Some(read) => match group {
            None => note_expr(whole, found),
            Some(group) => {
                found.push(Occurrence::Reduces(Reducing {
                    scalar: read.scalar,
                    group,
                    read: read.node,
                }))?;
                note_expr(beside, found)
            }
        },
    }
}

/// Notes a reduction by `++` or `--`, or else what the expression does.
fn note_unit(
    whole: &TExpr,
    group: Option<WideGroup>,
    read: Option<ScalarRead>,
    found: &mut Vec<Occurrence>,
) -> Result<(), NoMemory>
    ensures { OnOk result (found.new.items ≡ found.old.items ++ reduces_or (occurs_in whole.now) [] group read) }
{
    match read {
        None => note_expr(whole, found),
        Some(read) => match group {
            None => note_expr(whole, found),
            Some(group) => Ok(found.push(Occurrence::Reduces(Reducing {
                scalar: read.scalar,
                group,
                read: read.node,
            }))?),
        },
    }
}

/// Notes a reduction whose scalar is the left operand, or the right one, or else what the whole expression does.
fn note_either(
    whole: &TExpr,
    left: &TExpr,
    right: &TExpr,
    op: Bin,
    on_left: Option<ScalarRead>,
    on_right: Option<ScalarRead>,
    found: &mut Vec<Occurrence>,
) -> Result<(), NoMemory>
    ensures { OnOk result (found.new.items ≡ found.old.items ++ reduces_or (reduces_or (occurs_in whole.now) (occurs_in left.now) (commuting op) on_right) (occurs_in right.now) (by_group (group_of op)) on_left) }
{
    match on_left {
        None => note_reduces_or(whole, left, commuting(op), on_right, found),
        Some(read) => match by_group(group_of(op)) {
            None => note_reduces_or(whole, left, commuting(op), on_right, found),
            Some(group) => {
                found.push(Occurrence::Reduces(Reducing {
                    scalar: read.scalar,
                    group,
                    read: read.node,
                }))?;
                note_expr(right, found)
            }
        },
    }
}

/// Notes what `left = right` does.
fn note_assigned(
    alloc: Global,
    whole: &TExpr,
    left: &TExpr,
    right: &TExpr,
    found: &mut Vec<Occurrence>,
) -> Result<(), NoMemory>
    ensures { OnOk result (found.new.items ≡ found.old.items ++ assigned_step (occurs_in whole.now) left.now (out-TExpr right.now)) }
{
    let read = scalar_of(left);
    match right {
        TExpr::Binary {
            op,
            left: first,
            right: second,
            ..
        } => note_either(
            whole,
            first.get(),
            second.get(),
            *op,
            again(read, first.get()),
            again(read, second.get()),
            found,
        ),
        TExpr::Cond {
            test,
            then,
            other,
            ..
        } => note_choice(
            alloc,
            whole,
            left,
            then.get(),
            other.get(),
            compared(read, test.get()),
            found,
        ),
        _ => note_expr(whole, found),
    }
}

/// Notes what an expression statement does: it may reduce a scalar.
pub fn note_action(alloc: Global, expr: &TExpr, found: &mut Vec<Occurrence>) -> Result<(), NoMemory>
    ensures { OnOk result (found.new.items ≡ found.old.items ++ action_occurs expr.now) }
{
    match expr {
        TExpr::AssignBy {
            change,
            left,
            right,
            ..
        } => note_reduces_or(
            expr,
            right.get(),
            by_group(change_group(*change)),
            scalar_of(left.get()),
            found,
        ),
        TExpr::Post { change, of, .. } | TExpr::Pre { change, of, .. } => note_unit(
            expr,
            by_group(change_group(*change)),
            scalar_of(of.get()),
            found,
        ),
        TExpr::Assign { left, right, .. } => note_assigned(
            alloc,
            expr,
            left.get(),
            unconverted(right.get()),
            found,
        ),
        _ => note_expr(expr, found),
    }
}
