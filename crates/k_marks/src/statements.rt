//! What statements do with variables, noted in text order.
ghost use Rattle.std.specs.Prelude.{◌≡◌, ◌++◌, map, OnOk, option_map, unwrap_or};
ghost use Rattle.k_marks_meaning.specs.Contents.{inside, nothing, part_inside, row};

use crate::actions::note_action;
use crate::notes::{note_declared, note_expr, note_head, note_option};
use k_marks_meaning::Use;
use k_num::{Box, NoMemory, Seq};
use k_types_meaning::{TPart, TStmt};

/// Notes what a statement does.
#[cycle(statements)]
pub(crate) fn note_stmt(stmt: &TStmt, uses: &mut Vec<Use>) -> Result<(), NoMemory>
    ensures { OnOk result (uses.new.items ≡ uses.old.items ++ (inside stmt.now).uses) }
{
    match stmt {
        TStmt::Empty { .. } | TStmt::Break { .. } | TStmt::Continue { .. } => Ok(()),
        TStmt::Expr { value, .. } => note_action(value.get(), uses),
        TStmt::Block { parts, .. } => note_stmts(parts, uses),
        TStmt::If {
            test,
            then,
            other,
            ..
        } => {
            note_expr(test.get(), uses)?;
            note_stmt(then.get(), uses)?;
            note_else(other, uses)
        }
        TStmt::While { test, body, .. } => {
            note_expr(test.get(), uses)?;
            note_stmt(body.get(), uses)
        }
        TStmt::DoWhile { body, test, .. } => {
            note_stmt(body.get(), uses)?;
            note_expr(test.get(), uses)
        }
        TStmt::For {
            first,
            test,
            step,
            body,
            ..
        } => {
            note_head(first, test, step, uses)?;
            note_stmt(body.get(), uses)
        }
        TStmt::Switch { on, parts, .. } => {
            note_expr(on.get(), uses)?;
            note_parts(parts, uses)
        }
        TStmt::Return { value, .. } => note_option(value, uses),
        TStmt::Declare { list, .. } => note_declared(list, uses),
    }
}

/// Notes what statements do.
#[cycle(statements)]
fn note_stmts(stmts: &Seq<TStmt>, uses: &mut Vec<Use>) -> Result<(), NoMemory>
    ensures { OnOk result (uses.new.items ≡ uses.old.items ++ (row (map inside stmts.now)).uses) }
{
    for stmt in stmts.as_slice() {
        note_stmt(stmt, uses)?;
    }
    Ok(())
}

/// Notes what a statement does that may be left out.
#[cycle(statements)]
fn note_else(stmt: &Option<Box<TStmt>>, uses: &mut Vec<Use>) -> Result<(), NoMemory>
    ensures { OnOk result (uses.new.items ≡ uses.old.items ++ (unwrap_or (option_map inside stmt.now) nothing).uses) }
{
    match stmt {
        None => Ok(()),
        Some(stmt) => note_stmt(stmt.get(), uses),
    }
}

/// Notes what the parts of a switch do.
#[cycle(statements)]
fn note_parts(parts: &Seq<TPart>, uses: &mut Vec<Use>) -> Result<(), NoMemory>
    ensures { OnOk result (uses.new.items ≡ uses.old.items ++ (row (map part_inside parts.now)).uses) }
{
    for part in parts.as_slice() {
        note_part(part, uses)?;
    }
    Ok(())
}

/// Notes what a part of a switch does.
#[cycle(statements)]
fn note_part(part: &TPart, uses: &mut Vec<Use>) -> Result<(), NoMemory>
    ensures { OnOk result (uses.new.items ≡ uses.old.items ++ (part_inside part.now).uses) }
{
    match part {
        TPart::Case { .. } | TPart::Default { .. } => Ok(()),
        TPart::Does { stmt, .. } => note_stmt(stmt.get(), uses),
    }
}
