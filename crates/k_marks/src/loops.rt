//! Which loops are counted, and which reads they break.
ghost use Rattle.std.specs.Prelude.{◌≡◌, ◌+◌, ◌++◌, ◌∷◌, [], length, if◌then◌else◌, IfOk, OnOk};
ghost use Rattle.std.specs.Option.{option_copied};
ghost use Rattle.k_marks_meaning.specs.Uses.{declares, first_declares};
ghost use Rattle.k_marks_meaning.specs.Loops.{loop_uses, counter, counter_read, is_counted, broken_by, broken_by_all};
ghost use Rattle.k_marks.specs.Known.{known_bound, known_counts, known_reduced, known_read, known_reads, table_with_all, IsFresh};
ghost use Rattle.k_marks.specs.Found.{seen};

use crate::conditions::{bound_of, counter, is_assigned_once, is_fixed, is_register};
use crate::found::Turns;
use crate::known::{Entry, allows, look, note_uses};
use crate::notes::{note_expr, note_option};
use crate::statements::note_stmt;
use k_marks_jumps::jumps_of;
use k_marks_meaning::{Group, Read, Use};
use k_num::{NoMemory, Seq};
use k_types_meaning::{TDeclarator, TExpr, TFirst, TVariable};
use std::alloc::Global;

/// Notes the variables that declarators declare.
fn note_declares(list: &Seq<TDeclarator>, uses: &mut Vec<Use>) -> Result<(), NoMemory>
    ensures { OnOk result (uses.new.items ≡ uses.old.items ++ declares list.now) }
{
    for declarator in list.as_slice() {
        uses.push(Use::Declares(declarator.variable))?;
    }
    Ok(())
}

/// Notes the variables that the first part of a `for` declares.
fn note_first_declares(first: &TFirst, uses: &mut Vec<Use>) -> Result<(), NoMemory>
    ensures { OnOk result (uses.new.items ≡ uses.old.items ++ first_declares first.now) }
{
    match first {
        TFirst::Nothing | TFirst::Value(_) => Ok(()),
        TFirst::Declare(list) => note_declares(list, uses),
    }
}

/// Notes what happens in a loop.
fn note_loop(turns: Turns<'_>, uses: &mut Vec<Use>) -> Result<(), NoMemory>
    ensures { OnOk result (uses.new.items ≡ uses.old.items ++ loop_uses (seen turns.entry)) }
{
    match turns {
        Turns::Tested { test, body } => {
            note_expr(test, uses)?;
            note_stmt(body, uses)
        }
        Turns::For {
            first,
            test,
            step,
            body,
        } => {
            note_first_declares(first, uses)?;
            note_option(test, uses)?;
            note_option(step, uses)?;
            note_stmt(body, uses)
        }
    }
}

/// Whether a bound is there, and built from variables that keep their values.
fn has_bound(bound: Option<&TExpr>, variables: &[TVariable], table: &[Entry], turn: u64) -> bool
    ensures { result ≡ known_bound variables.now table.now turn (option_copied bound.entry) }
{
    match bound {
        None => false,
        Some(bound) => is_fixed(bound, variables, table, turn),
    }
}

/// The variable that a loop's step counts.
fn loop_counter(turns: Turns<'_>) -> Option<Read>
    ensures { result ≡ counter (seen turns.entry).step }
{
    match turns {
        Turns::Tested { .. } => None,
        Turns::For { step, .. } => counter(step),
    }
}

/// Whether a variable is reduced by operators of a group.
fn is_reduced(
    variables: &[TVariable],
    table: &[Entry],
    turn: u64,
    variable: u32,
    group: Group,
) -> bool
    ensures { result ≡ known_reduced variables.now table.now turn variable group }
{
    is_register(variables, variable) && allows(look(table, turn, variable).how, group)
}

/// Lists the read that is broken where this happens, if one is.
fn break_read(
    variables: &[TVariable],
    table: &[Entry],
    turn: u64,
    what: Use,
    broken: &mut Vec<u32>,
) -> Result<(), NoMemory>
    ensures { OnOk result (broken.new.items ≡ broken.old.items ++ known_read variables.now table.now turn what) }
{
    match what {
        Use::Reduces(by) => {
            if is_reduced(variables, table, turn, by.variable, by.group) {
                broken.push(by.read)?;
            }
            Ok(())
        }
        Use::Names(_) | Use::Assigns(_) | Use::Declares(_) => Ok(()),
    }
}

/// Lists the reads of the reductions in a loop.
fn break_reads(
    variables: &[TVariable],
    table: &[Entry],
    turn: u64,
    uses: &[Use],
    broken: &mut Vec<u32>,
) -> Result<(), NoMemory>
    ensures { OnOk result (broken.new.items ≡ broken.old.items ++ known_reads variables.now table.now turn uses.now) }
{
    for what in uses {
        break_read(variables, table, turn, *what, broken)?;
    }
    Ok(())
}

/// Whether a loop is counted, by what is known of its variables.
fn is_counted(
    alloc: Global,
    variables: &[TVariable],
    table: &[Entry],
    turn: u64,
    uses: &[Use],
    turns: Turns<'_>,
) -> Result<bool, NoMemory>
    ensures { IfOk result (λ b. b ≡ known_counts variables.now table.now turn uses.now (seen turns.entry) (counter (seen turns.entry).step)) }
{
    match turns {
        Turns::Tested { .. } => Ok(false),
        Turns::For {
            test,
            step,
            body,
            ..
        } => match counter(step) {
            None => Ok(false),
            Some(read) => {
                let jumps = jumps_of(alloc, body)?;
                let runs_through = !jumps.breaks && !jumps.returns;
                let steps_alone = is_register(variables, read.variable)
                    && is_assigned_once(uses, read.variable);
                let bound = bound_of(read.variable, test);
                Ok(steps_alone && (has_bound(bound, variables, table, turn) && runs_through))
            }
        },
    }
}

/// Lists the read of a loop's step.
fn break_counter(turns: Turns<'_>, broken: &mut Vec<u32>) -> Result<(), NoMemory>
    ensures { OnOk result (broken.new.items ≡ broken.old.items ++ counter_read (counter (seen turns.entry).step)) }
{
    match loop_counter(turns) {
        None => Ok(()),
        Some(read) => Ok(broken.push(read.node)?),
    }
}

/// Notes all that happens in a loop in a table.
fn note_in(table: &mut Vec<Entry>, turn: u64, uses: &[Use])
    ensures { table.new.items ≡ table_with_all turn uses.now table.old.items }
{
    note_uses(table.as_mut_slice(), turn, uses)
}

/// What happens in a loop, which is noted in the table too.
fn note_all(
    alloc: Global,
    table: &mut Vec<Entry>,
    turn: u64,
    turns: Turns<'_>,
) -> Result<Vec<Use>, NoMemory>
    ensures uses { IfOk result (λ uses. uses.items ≡ loop_uses (seen turns.entry)) }
    ensures table { OnOk result (table.new.items ≡ table_with_all turn (loop_uses (seen turns.entry)) table.old.items) }
{
    let mut uses = Vec::new(alloc);
    note_loop(turns, &mut uses)?;
    note_in(table, turn, uses.as_slice());
    Ok(uses)
}

/// Lists the reads that a loop breaks, if it is counted that of its step too.
fn break_loop(
    counts: bool,
    variables: &[TVariable],
    table: &[Entry],
    turn: u64,
    uses: &[Use],
    turns: Turns<'_>,
    broken: &mut Vec<u32>,
) -> Result<(), NoMemory>
    ensures { OnOk result (broken.new.items ≡ broken.old.items ++ ((if counts then counter_read (counter (seen turns.entry).step) else []) ++ known_reads variables.now table.now turn uses.now)) }
{
    if counts {
        break_counter(turns, broken)?;
    }
    break_reads(variables, table, turn, uses, broken)
}

/// Marks a loop.
pub(crate) fn mark_loop(
    alloc: Global,
    variables: &[TVariable],
    table: &mut Vec<Entry>,
    turn: u64,
    turns: Turns<'_>,
    counted: &mut Vec<bool>,
    broken: &mut Vec<u32>,
) -> Result<(), NoMemory>
    requires sized { length table.old.items ≡ length variables.now }
    requires fresh { IsFresh turn table.old.items }
    ensures sized { OnOk result (length table.new.items ≡ length variables.now) }
    ensures fresh { OnOk result (IsFresh (turn + 1) table.new.items) }
    ensures counted { OnOk result (counted.new.items ≡ counted.old.items ++ is_counted variables.now (seen turns.entry) ∷ []) }
    ensures broken { OnOk result (broken.new.items ≡ broken.old.items ++ broken_by variables.now (seen turns.entry)) }
{
    let uses = note_all(alloc, table, turn, turns)?;
    let known = table.as_slice();
    let counts = is_counted(alloc, variables, known, turn, uses.as_slice(), turns)?;
    counted.push(counts)?;
    break_loop(
        counts,
        variables,
        known,
        turn,
        uses.as_slice(),
        turns,
        broken,
    )
}
