//! The loops of a function, found in text order.
ghost use Rattle.std.specs.Prelude.{◌≡◌, ◌++◌, map, OnOk, option_map, unwrap_or};
ghost use Rattle.k_marks_meaning.specs.Contents.{inside, nothing, part_inside, row};
ghost use Rattle.k_marks.specs.Found.{seen};

use k_num::{Box, NoMemory, Seq};
use k_types_meaning::{TExpr, TFirst, TPart, TStmt};

/// A loop: a `while` or a `do`, which are tested alone, or a `for`.
#[derive(Clone, Copy)]
pub(crate) enum Turns<'a> {
    Tested {
        test: &'a TExpr,
        body: &'a TStmt,
    },
    For {
        first: &'a TFirst,
        test: &'a Option<Box<TExpr>>,
        step: &'a Option<Box<TExpr>>,
        body: &'a TStmt,
    },
}

/// Finds the loops of a statement.
#[cycle(statements)]
fn find_stmt<'a>(stmt: &'a TStmt, loops: &mut Vec<Turns<'a>>) -> Result<(), NoMemory>
    ensures { OnOk result (map seen loops.new.items ≡ map seen loops.old.items ++ (inside stmt.now).loops) }
{
    match stmt {
        TStmt::Expr { .. }
        | TStmt::Empty { .. }
        | TStmt::Break { .. }
        | TStmt::Continue { .. }
        | TStmt::Return { .. }
        | TStmt::Declare { .. } => Ok(()),
        TStmt::Block { parts, .. } => find_stmts(parts, loops),
        TStmt::If { then, other, .. } => {
            find_stmt(then.get(), loops)?;
            find_else(other, loops)
        }
        TStmt::While { test, body, .. } | TStmt::DoWhile { body, test, .. } => {
            loops.push(Turns::Tested {
                test: test.get(),
                body: body.get(),
            })?;
            find_stmt(body.get(), loops)
        }
        TStmt::For {
            first,
            test,
            step,
            body,
            ..
        } => {
            loops.push(Turns::For {
                first,
                test,
                step,
                body: body.get(),
            })?;
            find_stmt(body.get(), loops)
        }
        TStmt::Switch { parts, .. } => find_parts(parts, loops),
    }
}

/// Finds the loops of statements.
#[cycle(statements)]
pub(crate) fn find_stmts<'a>(
    stmts: &'a Seq<TStmt>,
    loops: &mut Vec<Turns<'a>>,
) -> Result<(), NoMemory>
    ensures { OnOk result (map seen loops.new.items ≡ map seen loops.old.items ++ (row (map inside stmts.now)).loops) }
{
    for stmt in stmts.as_slice() {
        find_stmt(stmt, loops)?;
    }
    Ok(())
}

/// Finds the loops of a statement that may be left out.
#[cycle(statements)]
fn find_else<'a>(stmt: &'a Option<Box<TStmt>>, loops: &mut Vec<Turns<'a>>) -> Result<(), NoMemory>
    ensures { OnOk result (map seen loops.new.items ≡ map seen loops.old.items ++ (unwrap_or (option_map inside stmt.now) nothing).loops) }
{
    match stmt {
        None => Ok(()),
        Some(stmt) => find_stmt(stmt.get(), loops),
    }
}

/// Finds the loops of the parts of a switch.
#[cycle(statements)]
fn find_parts<'a>(parts: &'a Seq<TPart>, loops: &mut Vec<Turns<'a>>) -> Result<(), NoMemory>
    ensures { OnOk result (map seen loops.new.items ≡ map seen loops.old.items ++ (row (map part_inside parts.now)).loops) }
{
    for part in parts.as_slice() {
        find_part(part, loops)?;
    }
    Ok(())
}

/// Finds the loops of a part of a switch.
#[cycle(statements)]
fn find_part<'a>(part: &'a TPart, loops: &mut Vec<Turns<'a>>) -> Result<(), NoMemory>
    ensures { OnOk result (map seen loops.new.items ≡ map seen loops.old.items ++ (part_inside part.now).loops) }
{
    match part {
        TPart::Case { .. } | TPart::Default { .. } => Ok(()),
        TPart::Does { stmt, .. } => find_stmt(stmt.get(), loops),
    }
}
