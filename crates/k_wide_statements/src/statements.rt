//! What statements do with scalars and functions, noted in text order.
ghost use Rattle.std.specs.Prelude.{◌≡◌, ◌||◌, ◌++◌, ◌∷◌, map, false, OnOk, IfOk, is_some, option_map, unwrap_or, Some, None, []};
ghost use Rattle.k_wide_meaning.specs.Occurrences.{occurs_in};
ghost use Rattle.k_wide_meaning.specs.Reductions.{kept_if};
ghost use Rattle.k_wide_meaning.specs.Contents.{seen, part_seen, row, member, kept_among, if_occurs};
ghost use Rattle.k_wide_statements.specs.Members.{rest_occurs, member_occurs};

use k_num::{NoMemory, Seq};
use k_types_meaning::{TExpr, TPart, TStmt};
use k_wide::{note_action, note_declared, note_expr, note_head, note_kept, note_option};
use k_wide_meaning::Occurrence;
use std::alloc::Global;

/// Notes what a statement does.
#[cycle(statements)]
pub fn note_stmt(alloc: Global, stmt: &TStmt, found: &mut Vec<Occurrence>) -> Result<(), NoMemory>
    ensures { OnOk result (found.new.items ≡ found.old.items ++ (seen stmt.now).occurs) }
{
    match stmt {
        TStmt::Empty { .. } | TStmt::Break { .. } | TStmt::Continue { .. } => Ok(()),
        TStmt::Expr { value, .. } => note_action(alloc, value.get(), found),
        TStmt::Block { parts, .. } => note_stmts(alloc, parts, found),
        TStmt::If {
            test,
            then,
            other: None,
            ..
        } => note_then(alloc, test.get(), then.get(), found),
        TStmt::If {
            test,
            then,
            other: Some(other),
            ..
        } => {
            note_expr(test.get(), found)?;
            note_stmt(alloc, then.get(), found)?;
            note_stmt(alloc, other.get(), found)
        }
        TStmt::While { test, body, .. } => {
            note_expr(test.get(), found)?;
            note_stmt(alloc, body.get(), found)
        }
        TStmt::DoWhile { body, test, .. } => {
            note_stmt(alloc, body.get(), found)?;
            note_expr(test.get(), found)
        }
        TStmt::For {
            first,
            test,
            step,
            body,
            ..
        } => {
            note_head(first, test, step, found)?;
            note_stmt(alloc, body.get(), found)
        }
        TStmt::Switch { on, parts, .. } => {
            note_expr(on.get(), found)?;
            note_parts(alloc, parts, found)
        }
        TStmt::Return { value, .. } => note_option(value, found),
        TStmt::Declare { list, .. } => note_declared(list, found),
    }
}

/// Notes what statements do.
#[cycle(statements)]
pub fn note_stmts(
    alloc: Global,
    stmts: &Seq<TStmt>,
    found: &mut Vec<Occurrence>,
) -> Result<(), NoMemory>
    ensures { OnOk result (found.new.items ≡ found.old.items ++ (row (map seen stmts.now)).occurs) }
{
    for stmt in stmts.as_slice() {
        note_stmt(alloc, stmt, found)?;
    }
    Ok(())
}

/// Notes what an `if` without `else` does.
#[cycle(statements)]
fn note_then(
    alloc: Global,
    test: &TExpr,
    arm: &TStmt,
    found: &mut Vec<Occurrence>,
) -> Result<(), NoMemory>
    ensures { OnOk result (found.new.items ≡ found.old.items ++ if_occurs test.now (seen arm.now) None) }
{
    match arm {
        TStmt::Block { parts, .. } => note_braces(alloc, parts, test, found),
        _ => note_single(alloc, test, arm, found),
    }
}

/// Notes what an expression statement behind this test does, where it keeps the least or the greatest; tells whether
/// it does.
fn note_keeping(
    alloc: Global,
    test: &TExpr,
    stmt: &TStmt,
    found: &mut Vec<Occurrence>,
) -> Result<bool, NoMemory>
    ensures told { IfOk result (λ b. b ≡ is_some (kept_if test.now (seen stmt.now).action)) }
    ensures noted { OnOk result (found.new.items ≡ found.old.items ++ unwrap_or (kept_if test.now (seen stmt.now).action) []) }
{
    match stmt {
        TStmt::Expr { value, .. } => note_kept(alloc, test, value.get(), found),
        _ => Ok(false),
    }
}

/// Notes what an `if` does whose arm is a single statement.
#[cycle(statements)]
fn note_single(
    alloc: Global,
    test: &TExpr,
    stmt: &TStmt,
    found: &mut Vec<Occurrence>,
) -> Result<(), NoMemory>
    ensures { OnOk result (found.new.items ≡ found.old.items ++ unwrap_or (kept_among test.now (member (seen stmt.now) ∷ [])) (occurs_in test.now ++ (seen stmt.now).occurs)) }
{
    let keeps = note_keeping(alloc, test, stmt, found)?;
    if !keeps {
        note_expr(test, found)?;
        note_stmt(alloc, stmt, found)?;
    }
    Ok(())
}

/// Whether one of these statements behind the test keeps the least or the greatest.
fn keeps_among(alloc: Global, test: &TExpr, stmts: &Seq<TStmt>) -> Result<bool, NoMemory>
    ensures { IfOk result (λ b. b ≡ is_some (kept_among test.now (map member (map seen stmts.now)))) }
{
    let mut noted = Vec::new(alloc);
    for stmt in stmts.as_slice() {
        if note_keeping(alloc, test, stmt, &mut noted)? {
            return Ok(true);
        }
    }
    Ok(false)
}

/// Notes what a statement does behind a test, where none before it keeps the least or the greatest; tells whether one
/// does now.
#[cycle(statements)]
fn note_member(
    alloc: Global,
    test: &TExpr,
    stmt: &TStmt,
    kept: bool,
    found: &mut Vec<Occurrence>,
) -> Result<bool, NoMemory>
    ensures told { IfOk result (λ b. b ≡ (kept || is_some (kept_if test.now (seen stmt.now).action))) }
    ensures noted { OnOk result (found.new.items ≡ found.old.items ++ member_occurs test.now kept (member (seen stmt.now))) }
{
    if kept {
        note_stmt(alloc, stmt, found)?;
        return Ok(true);
    }
    let keeps = note_keeping(alloc, test, stmt, found)?;
    if !keeps {
        note_stmt(alloc, stmt, found)?;
    }
    Ok(keeps)
}

/// Notes what the statements behind a test do, one of which keeps the least or the greatest.
#[cycle(statements)]
fn note_members(
    alloc: Global,
    stmts: &Seq<TStmt>,
    test: &TExpr,
    found: &mut Vec<Occurrence>,
) -> Result<(), NoMemory>
    ensures { OnOk result (found.new.items ≡ found.old.items ++ rest_occurs test.now false (map member (map seen stmts.now))) }
{
    let mut kept = false;
    for stmt in stmts.as_slice() {
        kept = note_member(alloc, test, stmt, kept, found)?;
    }
    Ok(())
}

/// Notes what an `if` does whose arm is a block.
#[cycle(statements)]
fn note_braces(
    alloc: Global,
    stmts: &Seq<TStmt>,
    test: &TExpr,
    found: &mut Vec<Occurrence>,
) -> Result<(), NoMemory>
    ensures { OnOk result (found.new.items ≡ found.old.items ++ unwrap_or (kept_among test.now (map member (map seen stmts.now))) (occurs_in test.now ++ (row (map seen stmts.now)).occurs)) }
{
    let keeps = keeps_among(alloc, test, stmts)?;
    if keeps {
        note_members(alloc, stmts, test, found)?;
    } else {
        note_expr(test, found)?;
        note_stmts(alloc, stmts, found)?;
    }
    Ok(())
}

/// Notes what the parts of a switch do.
#[cycle(statements)]
fn note_parts(
    alloc: Global,
    parts: &Seq<TPart>,
    found: &mut Vec<Occurrence>,
) -> Result<(), NoMemory>
    ensures { OnOk result (found.new.items ≡ found.old.items ++ (row (map part_seen parts.now)).occurs) }
{
    for part in parts.as_slice() {
        note_part(alloc, part, found)?;
    }
    Ok(())
}

/// Notes what a part of a switch does.
#[cycle(statements)]
fn note_part(alloc: Global, part: &TPart, found: &mut Vec<Occurrence>) -> Result<(), NoMemory>
    ensures { OnOk result (found.new.items ≡ found.old.items ++ (part_seen part.now).occurs) }
{
    match part {
        TPart::Case { .. } | TPart::Default { .. } => Ok(()),
        TPart::Does { stmt, .. } => note_stmt(alloc, stmt.get(), found),
    }
}
