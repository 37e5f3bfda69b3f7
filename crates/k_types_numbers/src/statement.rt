//! Numbering of statements (C17 6.8).
ghost use Rattle.std.specs.Prelude.{◌≡◌, true, OnOk};
ghost use Rattle.k_types_numbers.specs.Forms.{selects_or_iterates, iterates};
ghost use Rattle.k_types_numbers.specs.Renumbering.{NumbersBehind, NumbersClauses, NumbersFirst, NumbersPart, NumbersParts, NumbersStmt, NumbersStmts};

use crate::counts::Counts;
use crate::declaration::number_declared;
use crate::expression::{number_boxed, number_expr, number_option};
use k_num::{Box, NoMemory};
use k_types_meaning::{TExpr, TFirst, TPart, TStmt};
use std::alloc::Global;

/// Numbers statements in their order.
#[cycle(statements)]
pub fn number_stmts(stmts: &mut [TStmt], alloc: Global, counts: &mut Counts) -> Result<(), NoMemory>
    ensures { OnOk result (NumbersStmts stmts.old stmts.new counts.old counts.new) }
{
    for stmt in stmts.iter_mut() {
        number_stmt(stmt, alloc, counts)?;
    }
    Ok(())
}

/// Numbers a statement in a box.
#[cycle(statements)]
fn number_boxed_stmt(
    stmt: &mut Box<TStmt>,
    alloc: Global,
    counts: &mut Counts,
) -> Result<(), NoMemory>
    ensures { OnOk result (NumbersStmt stmt.old stmt.new counts.old counts.new) }
{
    number_stmt(stmt.get_mut(), alloc, counts)
}

/// Numbers a statement: its own number comes first, then those of its parts.
#[cycle(statements)]
fn number_stmt(stmt: &mut TStmt, alloc: Global, counts: &mut Counts) -> Result<(), NoMemory>
    ensures { OnOk result (NumbersStmt stmt.old stmt.new counts.old counts.new) }
{
    let number = counts.node()?;
    number_behind(stmt, number, alloc, counts)
}

/// Gives a statement this number, and numbers its parts.
#[cycle(statements)]
fn number_behind(
    stmt: &mut TStmt,
    number: u32,
    alloc: Global,
    counts: &mut Counts,
) -> Result<(), NoMemory>
    ensures { OnOk result (NumbersBehind number stmt.old stmt.new counts.old counts.new) }
{
    match stmt {
        TStmt::Expr { spot, value } => {
            spot.number = number;
            number_boxed(value, alloc, counts)?;
            Ok(())
        }
        TStmt::Empty { spot } => {
            spot.number = number;
            Ok(())
        }
        TStmt::Block { spot, parts } => {
            spot.number = number;
            number_stmts(parts.as_mut_slice(), alloc, counts)?;
            Ok(())
        }
        TStmt::Break { spot } => {
            spot.number = number;
            Ok(())
        }
        TStmt::Continue { spot } => {
            spot.number = number;
            Ok(())
        }
        TStmt::Return { spot, value } => {
            spot.number = number;
            number_option(value, alloc, counts)?;
            Ok(())
        }
        TStmt::Declare { spot, list } => {
            spot.number = number;
            number_declared(list.as_mut_slice(), alloc, counts)?;
            Ok(())
        }
        _ => number_selection(stmt, number, alloc, counts),
    }
}

/// The same for a selection or a loop: selections stand here.
#[cycle(statements)]
fn number_selection(
    stmt: &mut TStmt,
    number: u32,
    alloc: Global,
    counts: &mut Counts,
) -> Result<(), NoMemory>
    requires { selects_or_iterates stmt.old ≡ true }
    ensures { OnOk result (NumbersBehind number stmt.old stmt.new counts.old counts.new) }
{
    match stmt {
        TStmt::If {
            spot,
            test,
            then,
            other,
        } => {
            spot.number = number;
            number_boxed(test, alloc, counts)?;
            number_boxed_stmt(then, alloc, counts)?;
            match other {
                None => Ok(()),
                Some(other) => {
                    number_boxed_stmt(other, alloc, counts)?;
                    Ok(())
                }
            }
        }
        TStmt::Switch {
            spot,
            kind: _kind,
            on,
            parts,
        } => {
            spot.number = number;
            number_boxed(on, alloc, counts)?;
            number_parts(parts.as_mut_slice(), alloc, counts)?;
            Ok(())
        }
        _ => number_loop(stmt, number, alloc, counts),
    }
}

/// The same for a loop.
#[cycle(statements)]
fn number_loop(
    stmt: &mut TStmt,
    number: u32,
    alloc: Global,
    counts: &mut Counts,
) -> Result<(), NoMemory>
    requires { iterates stmt.old ≡ true }
    ensures { OnOk result (NumbersBehind number stmt.old stmt.new counts.old counts.new) }
{
    match stmt {
        TStmt::While {
            spot,
            turns,
            test,
            body,
        } => {
            spot.number = number;
            *turns = counts.turns()?;
            number_boxed(test, alloc, counts)?;
            number_boxed_stmt(body, alloc, counts)
        }
        TStmt::DoWhile {
            spot,
            turns,
            body,
            test,
        } => {
            spot.number = number;
            *turns = counts.turns()?;
            number_boxed_stmt(body, alloc, counts)?;
            number_boxed(test, alloc, counts)
        }
        TStmt::For {
            spot,
            turns,
            first,
            test,
            step,
            body,
        } => {
            spot.number = number;
            *turns = counts.turns()?;
            number_clauses(first, test, step, alloc, counts)?;
            number_boxed_stmt(body, alloc, counts)
        }
        _ => unreachable!(),
    }
}

/// Numbers the parts of a `switch` in their order.
#[cycle(statements)]
fn number_parts(parts: &mut [TPart], alloc: Global, counts: &mut Counts) -> Result<(), NoMemory>
    ensures { OnOk result (NumbersParts parts.old parts.new counts.old counts.new) }
{
    for part in parts.iter_mut() {
        number_part(part, alloc, counts)?;
    }
    Ok(())
}

/// Numbers a part of a `switch`. Labels have no number.
#[cycle(statements)]
fn number_part(part: &mut TPart, alloc: Global, counts: &mut Counts) -> Result<(), NoMemory>
    ensures { OnOk result (NumbersPart part.old part.new counts.old counts.new) }
{
    match part {
        TPart::Case { .. } => Ok(()),
        TPart::Default { .. } => Ok(()),
        TPart::Does {
            place: _place,
            stmt,
        } => {
            number_boxed_stmt(stmt, alloc, counts)?;
            Ok(())
        }
    }
}

/// Numbers the first part, the test and the step of a `for`.
fn number_clauses(
    first: &mut TFirst,
    test: &mut Option<Box<TExpr>>,
    step: &mut Option<Box<TExpr>>,
    alloc: Global,
    counts: &mut Counts,
) -> Result<(), NoMemory>
    ensures { OnOk result (NumbersClauses first.old test.old step.old first.new test.new step.new counts.old counts.new) }
{
    number_first(first, alloc, counts)?;
    number_option(test, alloc, counts)?;
    number_option(step, alloc, counts)?;
    Ok(())
}

/// Numbers the first part of a `for`.
fn number_first(first: &mut TFirst, alloc: Global, counts: &mut Counts) -> Result<(), NoMemory>
    ensures { OnOk result (NumbersFirst first.old first.new counts.old counts.new) }
{
    match first {
        TFirst::Nothing => Ok(()),
        TFirst::Value(value) => {
            number_expr(value, alloc, counts)?;
            Ok(())
        }
        TFirst::Declare(list) => {
            number_declared(list.as_mut_slice(), alloc, counts)?;
            Ok(())
        }
    }
}
