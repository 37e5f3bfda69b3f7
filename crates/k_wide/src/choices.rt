//! Statements that keep the least or the greatest: `if (C) s = e;` and `s = C ? e : s`.
ghost use Rattle.std.specs.Prelude.{◌≡◌, ◌&&◌, ◌++◌, ◌∷◌, [], OnOk, IfOk, is_some, option_map, unwrap_or, Some};
ghost use Rattle.std.specs.Option.{option_copied};
ghost use Rattle.k_wide.specs.Lent.{compared_as};
ghost use Rattle.k_wide_meaning.specs.Occurrences.{occurs_in};
ghost use Rattle.k_wide_meaning.specs.Signs.{are_same};
ghost use Rattle.k_wide_meaning.specs.Reductions.{taken_of, keeps_by, kept_if, same_type, chosen_by, chosen_if, other};

use crate::actions::{again, scalar_of};
use crate::comparisons::{Comparison, compared, other, value_beside};
use crate::notes::note_expr;
use crate::signs::are_same;
use k_num::NoMemory;
use k_types_meaning::{TExpr, node_of};
use k_wide_meaning::{Occurrence, Reducing, ScalarRead, WideGroup};
use std::alloc::Global;

/// Notes that the least or the greatest is kept, where the value that is taken is the compared one; tells whether it
/// is.
fn note_compared(
    alloc: Global,
    value: &TExpr,
    by: Comparison<'_>,
    found: &mut Vec<Occurrence>,
) -> Result<bool, NoMemory>
    ensures told { IfOk result (λ b. b ≡ is_some (keeps_by value.now (taken_of value.now (Some (compared_as by.entry))))) }
    ensures noted { OnOk result (found.new.items ≡ found.old.items ++ unwrap_or (keeps_by value.now (taken_of value.now (Some (compared_as by.entry)))) []) }
{
    let same = are_same(alloc, value, by.value)?;
    if same {
        found.push(Occurrence::Reduces(Reducing {
            scalar: by.read.scalar,
            group: by.kept,
            read: by.read.node,
        }))?;
        note_expr(value, found)?;
    }
    Ok(same)
}

/// The same of a comparison that may not be there.
fn note_taken(
    alloc: Global,
    value: &TExpr,
    by: Option<Comparison<'_>>,
    found: &mut Vec<Occurrence>,
) -> Result<bool, NoMemory>
    ensures told { IfOk result (λ b. b ≡ is_some (keeps_by value.now (taken_of value.now (option_map compared_as by.entry)))) }
    ensures noted { OnOk result (found.new.items ≡ found.old.items ++ unwrap_or (keeps_by value.now (taken_of value.now (option_map compared_as by.entry))) []) }
{
    match by {
        None => Ok(false),
        Some(by) => note_compared(alloc, value, by, found),
    }
}

/// Notes what an expression statement behind this test does, where it keeps the least or the greatest; tells whether
/// it does.
pub fn note_kept(
    alloc: Global,
    test: &TExpr,
    action: &TExpr,
    found: &mut Vec<Occurrence>,
) -> Result<bool, NoMemory>
    ensures told { IfOk result (λ b. b ≡ is_some (kept_if test.now (Some action.now))) }
    ensures noted { OnOk result (found.new.items ≡ found.old.items ++ unwrap_or (kept_if test.now (Some action.now)) []) }
{
    match action {
        TExpr::Assign { left, right, .. } => note_taken(
            alloc,
            right.get(),
            compared(scalar_of(left.get()), test),
            found,
        ),
        _ => Ok(false),
    }
}

/// Whether two expressions have one type.
fn same_type(first: &TExpr, second: &TExpr) -> bool
    ensures { result ≡ same_type first.now second.now }
{
    node_of(first).of == node_of(second).of
}

/// Whether a value is the compared one, and of the type of what is assigned.
fn is_chosen(
    alloc: Global,
    left: &TExpr,
    value: &TExpr,
    by: Comparison<'_>,
) -> Result<bool, NoMemory>
    ensures { IfOk result (λ b. b ≡ (are_same value.now by.entry.value.now && same_type value.now left.now)) }
{
    let same = are_same(alloc, value, by.value)?;
    Ok(same && same_type(value, left))
}

/// Notes a choice between a scalar and a value: both reads of the scalar are of the reduction.
fn note_reads(
    kept: WideGroup,
    read: ScalarRead,
    arm: ScalarRead,
    value: &TExpr,
    found: &mut Vec<Occurrence>,
) -> Result<(), NoMemory>
    ensures { OnOk result (found.new.items ≡ found.old.items ++ Occurrence.Reduces (record { scalar = read.scalar; group = kept; read = read.node }) ∷ Occurrence.Reduces (record { scalar = arm.scalar; group = kept; read = arm.node }) ∷ occurs_in value.now) }
{
    found.push(Occurrence::Reduces(Reducing {
        scalar: read.scalar,
        group: kept,
        read: read.node,
    }))?;
    found.push(Occurrence::Reduces(Reducing {
        scalar: arm.scalar,
        group: kept,
        read: arm.node,
    }))?;
    note_expr(value, found)
}

/// Notes a choice with the scalar in the first arm, or else what the whole expression does.
fn note_turned(
    alloc: Global,
    whole: &TExpr,
    left: &TExpr,
    arm: Option<ScalarRead>,
    value: Option<&TExpr>,
    by: Comparison<'_>,
    found: &mut Vec<Occurrence>,
) -> Result<(), NoMemory>
    ensures { OnOk result (found.new.items ≡ found.old.items ++ chosen_by (occurs_in whole.now) left.now (other by.entry.kept) arm (option_copied value.entry) (compared_as by.entry)) }
{
    match arm {
        None => note_expr(whole, found),
        Some(arm) => match value {
            None => note_expr(whole, found),
            Some(value) => {
                if is_chosen(alloc, left, value, by)? {
                    note_reads(other(by.kept), by.read, arm, value, found)?;
                } else {
                    note_expr(whole, found)?;
                }
                Ok(())
            }
        },
    }
}

/// Notes a choice with the scalar in the second arm, or else in the first one, or else what the whole expression does.
fn note_either_arm(
    alloc: Global,
    whole: &TExpr,
    left: &TExpr,
    first: &TExpr,
    second: &TExpr,
    by: Comparison<'_>,
    found: &mut Vec<Occurrence>,
) -> Result<(), NoMemory>
    ensures { OnOk result (found.new.items ≡ found.old.items ++ chosen_if (occurs_in whole.now) left.now first.now second.now (Some (compared_as by.entry))) }
{
    let read = again(Some(by.read), second);
    let value = value_beside(first, second);
    let turned = again(Some(by.read), first);
    let beside = value_beside(second, first);
    match read {
        None => note_turned(alloc, whole, left, turned, beside, by, found),
        Some(arm) => match value {
            None => note_turned(alloc, whole, left, turned, beside, by, found),
            Some(value) => {
                if is_chosen(alloc, left, value, by)? {
                    note_reads(by.kept, by.read, arm, value, found)?;
                } else {
                    note_turned(alloc, whole, left, turned, beside, by, found)?;
                }
                Ok(())
            }
        },
    }
}

/// Notes what `left = test ? first : second` does.
pub(crate) fn note_choice(
    alloc: Global,
    whole: &TExpr,
    left: &TExpr,
    first: &TExpr,
    second: &TExpr,
    by: Option<Comparison<'_>>,
    found: &mut Vec<Occurrence>,
) -> Result<(), NoMemory>
    ensures { OnOk result (found.new.items ≡ found.old.items ++ chosen_if (occurs_in whole.now) left.now first.now second.now (option_map compared_as by.entry)) }
{
    match by {
        None => note_expr(whole, found),
        Some(by) => note_either_arm(alloc, whole, left, first, second, by, found),
    }
}
