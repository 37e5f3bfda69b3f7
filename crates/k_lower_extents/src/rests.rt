//! The extents of the statements of a block or a switch from each one on: what stands behind a statement that makes objects is closed, so
//! where that is emitted, its size and its jumps have to be known.
ghost use Rattle.std.specs.Prelude.{◌≡◌, ◌++◌, [], ◌∷◌, map, IfOk, OnOk};
ghost use Rattle.k_num.specs.declared.place.Place.{Place};
ghost use Rattle.k_lower_code.specs.Statements.{lowered};
ghost use Rattle.k_lower_code.specs.Stretches.{Inside};
ghost use Rattle.k_lower_code.specs.Switches.{statements_of};
ghost use Rattle.k_lower_extents.specs.Extents.{AreAllExtents, AreEntries, ArePartsExtents, extent_of, listed_part, lowered_part, rests_of};

use crate::extent::{Extent, rests};
use crate::table::extent_at;
use k_num::{NoMemory, Seq, Stack};
use k_types_meaning::{TPart, TStmt};
use std::alloc::Global;

/// The extents of statements, which a table has.
fn all_at(
    alloc: Global,
    table: &[Option<Extent>],
    stmts: &Seq<TStmt>,
) -> Result<Vec<Extent>, NoMemory>
    ensures { IfOk result (λ xs. (w : Inside) → AreAllExtents table.now w stmts.now → xs.items ≡ map extent_of (map (lowered w) stmts.now)) }
{
    let mut found = Vec::new(alloc);
    for stmt in stmts.as_slice() {
        let extent = extent_at(table, stmt)?;
        found.push(extent)?;
    }
    Ok(found)
}

/// Lists the extent of a part of a switch that is a statement, which a table has.
fn part_at(table: &[Option<Extent>], part: &TPart, found: &mut Vec<Extent>) -> Result<(), NoMemory>
    ensures { OnOk result ((w : Inside) → AreEntries table.now (listed_part w part.now).extents → found.new.items ≡ found.old.items ++ map extent_of (statements_of (lowered_part w part.now ∷ []))) }
{
    match part {
        TPart::Case { .. } | TPart::Default { .. } => Ok(()),
        TPart::Does { stmt, .. } => {
            let extent = extent_at(table, stmt.get())?;
            Ok(found.push(extent)?)
        }
    }
}

/// The extents of the statements among the parts of a switch, which a table has.
fn parts_at(
    alloc: Global,
    table: &[Option<Extent>],
    parts: &Seq<TPart>,
) -> Result<Vec<Extent>, NoMemory>
    ensures { IfOk result (λ xs. (w : Inside) → ArePartsExtents table.now w parts.now → xs.items ≡ map extent_of (statements_of (map (lowered_part w) parts.now))) }
{
    let mut found = Vec::new(alloc);
    for part in parts.as_slice() {
        part_at(table, part, &mut found)?;
    }
    Ok(found)
}

/// The extents of the statements of a block, which a table has: on top from the first on, below it from the second on, and so on, to that
/// of nothing.
pub fn rests_at(
    alloc: Global,
    table: &[Option<Extent>],
    stmts: &Seq<TStmt>,
) -> Result<Stack<Extent>, NoMemory>
    ensures { IfOk result (λ xs. (w : Inside) (place : Place) → AreAllExtents table.now w stmts.now → xs ≡ rests_of w.program place (map (lowered w) stmts.now)) }
{
    let extents = all_at(alloc, table, stmts)?;
    rests(alloc, extents.as_slice())
}

/// The same of the statements among the parts of a switch.
pub fn part_rests_at(
    alloc: Global,
    table: &[Option<Extent>],
    parts: &Seq<TPart>,
) -> Result<Stack<Extent>, NoMemory>
    ensures { IfOk result (λ xs. (w : Inside) (place : Place) → ArePartsExtents table.now w parts.now → xs ≡ rests_of w.program place (statements_of (map (lowered_part w) parts.now))) }
{
    let extents = parts_at(alloc, table, parts)?;
    rests(alloc, extents.as_slice())
}
