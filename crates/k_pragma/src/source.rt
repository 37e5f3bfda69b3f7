//! The source with comments and lines.
ghost use Rattle.std.specs.Prelude.{◌≡◌, ◌≤◌, length, IfOk};
ghost use Rattle.k_lex.specs.Tokens.{tokens};
ghost use Rattle.k_pragma_written.specs.Written.{IsWritten, if_tokens};
ghost use Rattle.k_pragma_written.specs.declared.told.Written.{Written as Told};
ghost use Rattle.k_pragma.specs.Insertions.{annotated, annotated_by};
ghost use Rattle.k_pragma.specs.Marked.{candidates as candidates_meant};

use crate::inserting::with_notes;
use crate::notes::notes_of;
use crate::pragmas::{candidates, pragmas_in};
use k_carry_pairs::CarriedPairs;
use k_lex::{lex, pragma_lines};
use k_marks_meaning::Marks;
use k_num::{NoMemory, Seq};
use k_optab::Region;
use k_pragma_written::{Written, written};
use k_selfpar::Row;
use k_tree::Token;
use k_types_meaning::TUnit;
use std::alloc::Global;

/// The tokens of a source that has them.
#[tactic(auto, using(crate::proofs::Found::if_found))]
fn tokens_of(alloc: Global, bytes: &[u8]) -> Result<Seq<Token>, NoMemory>
    ensures { IfOk result (λ list. list ≡ if_tokens (tokens bytes.now)) }
{
    match lex(alloc, bytes) {
        Ok(found) => Ok(found),
        Err(_) => Err(NoMemory),
    }
}

/// The source with comments and lines, by its tokens.
#[tactic(auto, unfolding(crate::specs::Insertions::annotated_by))]
fn annotate_by(
    alloc: Global,
    bytes: &[u8],
    found: &[Token],
    written: &Written,
    unit: &TUnit,
    marks: &Marks,
    regions: &[Region],
    rows: &[Row],
    among: &[u32],
) -> Result<Vec<u8>, NoMemory>
    requires short { length bytes.now ≤ 1048576 }
    ensures { IfOk result (λ text. text.items ≡ annotated_by bytes.now found.now written.now unit.now marks.now regions.now rows.now among.now) }
{
    let counted = marks.counted.as_slice();
    let pragmas = pragmas_in(alloc, among, counted, written, unit.functions.as_slice())?;
    let lines = pragma_lines(alloc, bytes)?;
    let notes = notes_of(
        alloc,
        lines.as_slice(),
        found,
        regions,
        pragmas.as_slice(),
        rows,
    )?;
    with_notes(alloc, notes.as_slice(), bytes)
}

/// The source with comments and lines, by what its tree tells.
#[tactic(auto, unfolding(crate::specs::Insertions::annotated))]
fn annotate_told(
    alloc: Global,
    bytes: &[u8],
    told: &Written,
    unit: &TUnit,
    marks: &Marks,
    regions: &Seq<Region>,
    rows: &Seq<Row>,
    among: &[u32],
) -> Result<Vec<u8>, NoMemory>
    requires short { length bytes.now ≤ 1048576 }
    ensures { IfOk result (λ text. text.items ≡ annotated bytes.now (tokens bytes.now) told.now unit.now marks.now regions.now rows.now among.now) }
{
    let found = tokens_of(alloc, bytes)?;
    annotate_by(
        alloc,
        bytes,
        found.as_slice(),
        told,
        unit,
        marks,
        regions.as_slice(),
        rows.as_slice(),
        among,
    )
}

/// The source with a comment before each function and loop that has a row, and an OpenMP line before each loop of a region among these that may run
/// in parallel: it is counted, the source spells `for` there, its turns share no register, OpenMP gives it C's meaning, and no line of `#pragma` stands
/// before it.
pub fn annotate_among(
    alloc: Global,
    bytes: &[u8],
    unit: &TUnit,
    marks: &Marks,
    regions: &Seq<Region>,
    rows: &Seq<Row>,
    among: &[u32],
) -> Result<Vec<u8>, NoMemory>
    requires short { length bytes.now ≤ 1048576 }
    ensures { IfOk result (λ text. (w : Told) × IsWritten bytes.now w
        × (text.items ≡ annotated bytes.now (tokens bytes.now) w unit.now marks.now regions.now rows.now among.now)) }
{
    let told = written(alloc, bytes)?;
    annotate_told(alloc, bytes, &told, unit, marks, regions, rows, among)
}

/// The source with a comment before each function and loop that has a row, and an OpenMP line before each picked loop that carried nothing in the run
/// and may run in parallel.
pub fn annotate(
    alloc: Global,
    bytes: &[u8],
    unit: &TUnit,
    marks: &Marks,
    regions: &Seq<Region>,
    rows: &Seq<Row>,
    picked: &Seq<u32>,
    found: &CarriedPairs,
) -> Result<Vec<u8>, NoMemory>
    requires short { length bytes.now ≤ 1048576 }
    ensures { IfOk result (λ text. (w : Told) × IsWritten bytes.now w
        × (text.items ≡ annotated bytes.now (tokens bytes.now) w unit.now marks.now regions.now rows.now (candidates_meant found.now.loops picked.now))) }
{
    let among = candidates(alloc, found.loops.as_slice(), picked.as_slice())?;
    annotate_among(alloc, bytes, unit, marks, regions, rows, among.as_slice())
}
