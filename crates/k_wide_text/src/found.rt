//! The loops of a function, found in text order.
ghost use Rattle.std.specs.Prelude.{◌≡◌, ◌++◌, map, OnOk, option_map, unwrap_or};
ghost use Rattle.std.specs.Option.{option_copied};
ghost use Rattle.k_wide_meaning.specs.Contents.{seen, nothing, part_seen, row};
ghost use Rattle.k_wide_text.specs.Found.{loop_as};

use k_num::{Box, NoMemory, Seq};
use k_types_meaning::{TExpr, TFirst, TPart, TStmt};
use k_wide_meaning::LoopSort;

/// A loop. Only a `for` has a start and a step.
#[derive(Clone, Copy)]
pub struct LoopText<'a> {
    pub sort: LoopSort,
    pub start: Option<&'a TFirst>,
    pub test: Option<&'a TExpr>,
    pub step: Option<&'a TExpr>,
    pub body: &'a TStmt,
}

/// What a box holds that may be left out.
fn lent(expr: &Option<Box<TExpr>>) -> Option<&TExpr>
    ensures { option_copied result ≡ expr.now }
{
    match expr {
        None => None,
        Some(expr) => Some(expr.get()),
    }
}

/// Finds the loops of a statement.
#[cycle(statements)]
fn find_stmt<'a>(stmt: &'a TStmt, loops: &mut Vec<LoopText<'a>>) -> Result<(), NoMemory>
    ensures { OnOk result (map loop_as loops.new.items ≡ map loop_as loops.old.items ++ (seen stmt.now).loops) }
{
    match stmt {
        TStmt::Expr { .. }
        | TStmt::Empty { .. }
        | TStmt::Break { .. }
        | TStmt::Continue { .. }
        | TStmt::Return { .. }
        | TStmt::Declare { .. } => Ok(()),
        TStmt::Block { parts, .. } => find_stmts(parts, loops),
        TStmt::If { then, other, .. } => {
            find_stmt(then.get(), loops)?;
            find_else(other, loops)
        }
        TStmt::While { test, body, .. } => {
            loops.push(LoopText {
                sort: LoopSort::While,
                start: None,
                test: Some(test.get()),
                step: None,
                body: body.get(),
            })?;
            find_stmt(body.get(), loops)
        }
        TStmt::DoWhile { test, body, .. } => {
            loops.push(LoopText {
                sort: LoopSort::Do,
                start: None,
                test: Some(test.get()),
                step: None,
                body: body.get(),
            })?;
            find_stmt(body.get(), loops)
        }
        TStmt::For {
            first,
            test,
            step,
            body,
            ..
        } => {
            loops.push(LoopText {
                sort: LoopSort::For,
                start: Some(first),
                test: lent(test),
                step: lent(step),
                body: body.get(),
            })?;
            find_stmt(body.get(), loops)
        }
        TStmt::Switch { parts, .. } => find_parts(parts, loops),
    }
}

/// Finds the loops of statements.
#[cycle(statements)]
pub fn find_stmts<'a>(stmts: &'a Seq<TStmt>, loops: &mut Vec<LoopText<'a>>) -> Result<(), NoMemory>
    ensures { OnOk result (map loop_as loops.new.items ≡ map loop_as loops.old.items ++ (row (map seen stmts.now)).loops) }
{
    for stmt in stmts.as_slice() {
        find_stmt(stmt, loops)?;
    }
    Ok(())
}

/// Finds the loops of a statement that may be left out.
#[cycle(statements)]
fn find_else<'a>(
    stmt: &'a Option<Box<TStmt>>,
    loops: &mut Vec<LoopText<'a>>,
) -> Result<(), NoMemory>
    ensures { OnOk result (map loop_as loops.new.items ≡ map loop_as loops.old.items ++ (unwrap_or (option_map seen stmt.now) nothing).loops) }
{
    match stmt {
        None => Ok(()),
        Some(stmt) => find_stmt(stmt.get(), loops),
    }
}

/// Finds the loops of the parts of a switch.
#[cycle(statements)]
fn find_parts<'a>(parts: &'a Seq<TPart>, loops: &mut Vec<LoopText<'a>>) -> Result<(), NoMemory>
    ensures { OnOk result (map loop_as loops.new.items ≡ map loop_as loops.old.items ++ (row (map part_seen parts.now)).loops) }
{
    for part in parts.as_slice() {
        find_part(part, loops)?;
    }
    Ok(())
}

/// Finds the loops of a part of a switch.
#[cycle(statements)]
fn find_part<'a>(part: &'a TPart, loops: &mut Vec<LoopText<'a>>) -> Result<(), NoMemory>
    ensures { OnOk result (map loop_as loops.new.items ≡ map loop_as loops.old.items ++ (part_seen part.now).loops) }
{
    match part {
        TPart::Case { .. } | TPart::Default { .. } => Ok(()),
        TPart::Does { stmt, .. } => find_stmt(stmt.get(), loops),
    }
}
