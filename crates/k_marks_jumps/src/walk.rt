//! The walk over statements that lists the jumps of each.
ghost use Rattle.std.specs.Prelude.{◌≡◌, ◌++◌, ◌∷◌, [], map, IfOk, OnOk, option_map, unwrap_or};
ghost use Rattle.k_marks_meaning.specs.Contents.{inside, nothing, part_inside, row, with_jumps};
ghost use Rattle.k_marks_meaning.specs.Marking.{statements_in};

use crate::jumps::{
    a_break, a_continue, a_return, jumps_of_both, no_jumps, out_of_loop, out_of_switch,
};
use k_marks_meaning::{Jumps, StatementJumps};
use k_num::{Box, NoMemory, Seq};
use k_types_meaning::{Spot, TFunc, TPart, TStmt};
use std::alloc::Global;

/// Lists a statement, out of whose parts and out of which these jumps lead. Answers its own.
fn list(
    spot: &Spot,
    parts: Jumps,
    itself: Jumps,
    found: &mut Vec<StatementJumps>,
) -> Result<Jumps, NoMemory>
    ensures jumps { IfOk result (λ j. j ≡ itself) }
    ensures found { OnOk result (found.new.items ≡ found.old.items ++ with_jumps spot.now parts itself ∷ []) }
{
    found.push(StatementJumps {
        number: spot.number,
        parts,
        itself,
    })?;
    Ok(itself)
}

/// Lists a statement and those in it, each behind those in it. Answers its own jumps.
#[cycle(statements)]
fn list_stmt(stmt: &TStmt, found: &mut Vec<StatementJumps>) -> Result<Jumps, NoMemory>
    ensures jumps { IfOk result (λ j. j ≡ (inside stmt.now).jumps) }
    ensures found { OnOk result (found.new.items ≡ found.old.items ++ (inside stmt.now).statements) }
{
    match stmt {
        TStmt::Expr { spot, .. } | TStmt::Empty { spot } | TStmt::Declare { spot, .. } => {
            list(spot, no_jumps(), no_jumps(), found)
        }
        TStmt::Block { spot, parts } => {
            let jumps = list_stmts(parts, found)?;
            list(spot, jumps, jumps, found)
        }
        TStmt::If {
            spot,
            then,
            other,
            ..
        } => {
            let first = list_stmt(then.get(), found)?;
            let second = list_else(other, found)?;
            let jumps = jumps_of_both(first, second);
            list(spot, jumps, jumps, found)
        }
        TStmt::While { spot, body, .. }
        | TStmt::DoWhile { spot, body, .. }
        | TStmt::For { spot, body, .. } => {
            let jumps = list_stmt(body.get(), found)?;
            list(spot, jumps, out_of_loop(jumps), found)
        }
        TStmt::Switch { spot, parts, .. } => {
            let jumps = list_parts(parts, found)?;
            list(spot, jumps, out_of_switch(jumps), found)
        }
        TStmt::Break { spot } => list(spot, no_jumps(), a_break(), found),
        TStmt::Continue { spot } => list(spot, no_jumps(), a_continue(), found),
        TStmt::Return { spot, .. } => list(spot, no_jumps(), a_return(), found),
    }
}

/// The same of statements.
#[cycle(statements)]
#[tactic(auto, using(crate::proofs::JumpLaws::both_again))]
fn list_stmts(stmts: &Seq<TStmt>, found: &mut Vec<StatementJumps>) -> Result<Jumps, NoMemory>
    ensures jumps { IfOk result (λ j. j ≡ (row (map inside stmts.now)).jumps) }
    ensures found { OnOk result (found.new.items ≡ found.old.items ++ (row (map inside stmts.now)).statements) }
{
    let mut jumps = no_jumps();
    for stmt in stmts.as_slice() {
        let more = list_stmt(stmt, found)?;
        jumps = jumps_of_both(jumps, more);
    }
    Ok(jumps)
}

/// The same of a statement that may be left out.
#[cycle(statements)]
fn list_else(stmt: &Option<Box<TStmt>>, found: &mut Vec<StatementJumps>) -> Result<Jumps, NoMemory>
    ensures jumps { IfOk result (λ j. j ≡ (unwrap_or (option_map inside stmt.now) nothing).jumps) }
    ensures found { OnOk result (found.new.items ≡ found.old.items ++ (unwrap_or (option_map inside stmt.now) nothing).statements) }
{
    match stmt {
        None => Ok(no_jumps()),
        Some(stmt) => list_stmt(stmt.get(), found),
    }
}

/// The same of the parts of a switch.
#[cycle(statements)]
#[tactic(auto, using(crate::proofs::JumpLaws::both_again))]
fn list_parts(parts: &Seq<TPart>, found: &mut Vec<StatementJumps>) -> Result<Jumps, NoMemory>
    ensures jumps { IfOk result (λ j. j ≡ (row (map part_inside parts.now)).jumps) }
    ensures found { OnOk result (found.new.items ≡ found.old.items ++ (row (map part_inside parts.now)).statements) }
{
    let mut jumps = no_jumps();
    for part in parts.as_slice() {
        let more = list_part(part, found)?;
        jumps = jumps_of_both(jumps, more);
    }
    Ok(jumps)
}

/// The same of a part of a switch.
#[cycle(statements)]
fn list_part(part: &TPart, found: &mut Vec<StatementJumps>) -> Result<Jumps, NoMemory>
    ensures jumps { IfOk result (λ j. j ≡ (part_inside part.now).jumps) }
    ensures found { OnOk result (found.new.items ≡ found.old.items ++ (part_inside part.now).statements) }
{
    match part {
        TPart::Case { .. } | TPart::Default { .. } => Ok(no_jumps()),
        TPart::Does { stmt, .. } => list_stmt(stmt.get(), found),
    }
}

/// Lists the statements of functions.
fn list_functions(functions: &[TFunc], found: &mut Vec<StatementJumps>) -> Result<(), NoMemory>
    ensures { OnOk result (found.new.items ≡ found.old.items ++ statements_in functions.now) }
{
    for function in functions {
        list_stmts(&function.body, found)?;
    }
    Ok(())
}

/// The statements of functions with their jumps, each statement behind those in it.
pub fn statements_of(alloc: Global, functions: &[TFunc]) -> Result<Vec<StatementJumps>, NoMemory>
    ensures { IfOk result (λ found. found.items ≡ statements_in functions.now) }
{
    let mut found = Vec::new(alloc);
    list_functions(functions, &mut found)?;
    Ok(found)
}

/// The jumps that lead out of a statement.
pub fn jumps_of(alloc: Global, stmt: &TStmt) -> Result<Jumps, NoMemory>
    ensures { IfOk result (λ j. j ≡ (inside stmt.now).jumps) }
{
    let mut found = Vec::new(alloc);
    list_stmt(stmt, &mut found)
}
