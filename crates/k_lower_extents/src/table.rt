//! The table of extents by the numbers of statements.
ghost use Rattle.std.specs.Prelude.{◌≡◌, IfOk, OnOk, slice_get};
ghost use Rattle.k_evaluation.specs.JumpLaws.{spot_of as spot_meant};
ghost use Rattle.k_lower_code.specs.Statements.{lowered};
ghost use Rattle.k_lower_code.specs.Stretches.{Inside};
ghost use Rattle.k_lower_extents.specs.Extents.{AreEntries, AreExtents, Notes, extent_of as extent_meant};

use crate::extent::{Extent, NumberedExtent};
use k_num::NoMemory;
use k_types_meaning::{Spot, TStmt};
use std::alloc::Global;

/// So many entries, of which none is set.
fn empty(alloc: Global, count: u32) -> Result<Vec<Option<Extent>>, NoMemory> {
    let mut table = Vec::new(alloc);
    table.resize(count as usize, None)?;
    Ok(table)
}

/// The entry at a number, if there is one.
fn entry_at(table: &[Option<Extent>], number: u32) -> Option<Option<Extent>>
    ensures { result ≡ slice_get table.now number }
{
    table.get(number as usize).copied()
}

/// Sets an entry. Where there is none, or it is set, numbers don't tell statements apart, and there is no table.
fn note(table: &mut [Option<Extent>], it: NumberedExtent) -> Result<(), NoMemory>
    ensures { OnOk result (Notes table.old table.new it) }
{
    let Some(None) = entry_at(table, it.number) else {
        return Err(NoMemory);
    };
    table[it.number as usize] = Some(it.extent);
    Ok(())
}

/// Sets these entries.
fn note_all(table: &mut [Option<Extent>], found: &[NumberedExtent]) -> Result<(), NoMemory>
    ensures { OnOk result (AreEntries table.new found.now) }
{
    for it in found {
        note(table, *it)?;
    }
    Ok(())
}

/// The table with these extents, where their numbers are below this count, and no two are one: else no memory is found for it.
pub(crate) fn table_of(
    alloc: Global,
    count: u32,
    found: &[NumberedExtent],
) -> Result<Vec<Option<Extent>>, NoMemory>
    ensures { IfOk result (λ table. AreEntries table.items found.now) }
{
    let mut table = empty(alloc, count)?;
    note_all(table.as_mut_slice(), found)?;
    Ok(table)
}

/// The spot of a statement.
pub(crate) fn spot_of(stmt: &TStmt) -> Spot
    ensures { result ≡ spot_meant stmt.now }
{
    match stmt {
        TStmt::Expr { spot, .. }
        | TStmt::Empty { spot }
        | TStmt::Block { spot, .. }
        | TStmt::If { spot, .. }
        | TStmt::While { spot, .. }
        | TStmt::DoWhile { spot, .. }
        | TStmt::For { spot, .. }
        | TStmt::Switch { spot, .. }
        | TStmt::Break { spot }
        | TStmt::Continue { spot }
        | TStmt::Return { spot, .. }
        | TStmt::Declare { spot, .. } => *spot,
    }
}

/// The extent of a statement, which a table has with those of the statements in it. No memory is found where there is none at its number.
pub fn extent_at(table: &[Option<Extent>], stmt: &TStmt) -> Result<Extent, NoMemory>
    ensures { IfOk result (λ x. (w : Inside) → AreExtents table.now w stmt.now → x ≡ extent_meant (lowered w stmt.now)) }
{
    match entry_at(table, spot_of(stmt).number) {
        Some(Some(extent)) => Ok(extent),
        _ => Err(NoMemory),
    }
}
