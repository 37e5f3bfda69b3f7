//! The loops of statements, in text order (C17 6.8.5).
ghost use Rattle.std.specs.Prelude.{◌≡◌, ◌++◌, map, option_map, OnOk};
ghost use Rattle.k_regions.specs.Regions.{find, find_part, loops_if_there, loops_of_all};

use k_num::{Box, NoMemory, Place, Seq};
use k_types_meaning::{TPart, TStmt};

/// A loop of a source: its number, and where its keyword and the first token of its body stand.
#[derive(Clone, Copy, Debug, PartialEq, Eq)]
pub struct LoopAt {
    pub number: u32,
    pub place: Place,
    pub body: Place,
}

/// Where a statement stands.
fn place_of(stmt: &TStmt) -> Place
    ensures { result ≡ (find stmt.now).place }
{
    match stmt {
        TStmt::Expr { spot, .. }
        | TStmt::Empty { spot }
        | TStmt::Block { spot, .. }
        | TStmt::If { spot, .. }
        | TStmt::While { spot, .. }
        | TStmt::DoWhile { spot, .. }
        | TStmt::For { spot, .. }
        | TStmt::Switch { spot, .. }
        | TStmt::Break { spot }
        | TStmt::Continue { spot }
        | TStmt::Return { spot, .. }
        | TStmt::Declare { spot, .. } => spot.place,
    }
}

/// Finds the loops of a statement.
#[cycle(statements)]
fn find_stmt(stmt: &TStmt, loops: &mut Seq<LoopAt>) -> Result<(), NoMemory>
    ensures { OnOk result (loops.new ≡ loops.old ++ (find stmt.now).loops) }
{
    match stmt {
        TStmt::Expr { .. }
        | TStmt::Empty { .. }
        | TStmt::Break { .. }
        | TStmt::Continue { .. }
        | TStmt::Return { .. }
        | TStmt::Declare { .. } => Ok(()),
        TStmt::Block { parts, .. } => find_stmts(parts, loops),
        TStmt::If { then, other, .. } => {
            find_stmt(then.get(), loops)?;
            find_else(other, loops)
        }
        TStmt::While {
            spot,
            turns,
            body,
            ..
        }
        | TStmt::DoWhile {
            spot,
            turns,
            body,
            ..
        }
        | TStmt::For {
            spot,
            turns,
            body,
            ..
        } => {
            loops.push(LoopAt {
                number: *turns,
                place: spot.place,
                body: place_of(body.get()),
            })?;
            find_stmt(body.get(), loops)
        }
        TStmt::Switch { parts, .. } => find_parts(parts, loops),
    }
}

/// Finds the loops of statements.
#[cycle(statements)]
pub(crate) fn find_stmts(stmts: &Seq<TStmt>, loops: &mut Seq<LoopAt>) -> Result<(), NoMemory>
    ensures { OnOk result (loops.new ≡ loops.old ++ loops_of_all (map find stmts.now)) }
{
    for stmt in stmts.as_slice() {
        find_stmt(stmt, loops)?;
    }
    Ok(())
}

/// Finds the loops of a statement that may be left out.
#[cycle(statements)]
fn find_else(stmt: &Option<Box<TStmt>>, loops: &mut Seq<LoopAt>) -> Result<(), NoMemory>
    ensures { OnOk result (loops.new ≡ loops.old ++ loops_if_there (option_map find stmt.now)) }
{
    match stmt {
        None => Ok(()),
        Some(stmt) => find_stmt(stmt.get(), loops),
    }
}

/// Finds the loops of the parts of a switch.
#[cycle(statements)]
fn find_parts(parts: &Seq<TPart>, loops: &mut Seq<LoopAt>) -> Result<(), NoMemory>
    ensures { OnOk result (loops.new ≡ loops.old ++ loops_of_all (map find_part parts.now)) }
{
    for part in parts.as_slice() {
        find_in(part, loops)?;
    }
    Ok(())
}

/// Finds the loops of a part of a switch.
#[cycle(statements)]
fn find_in(part: &TPart, loops: &mut Seq<LoopAt>) -> Result<(), NoMemory>
    ensures { OnOk result (loops.new ≡ loops.old ++ (find_part part.now).loops) }
{
    match part {
        TPart::Case { .. } | TPart::Default { .. } => Ok(()),
        TPart::Does { stmt, .. } => find_stmt(stmt.get(), loops),
    }
}
