//! The table.
ghost use Rattle.std.specs.Prelude.{◌≡◌, ◌++◌, ◌<◌, ◌^◌, IfOk, OnOk, option_copied, slice_get, Some};
ghost use Rattle.std.specs.List.{flat_map, list_any};
ghost use Rattle.k_advise_text.specs.Table as spec;

use crate::numbers::{
    push_count, push_count_between, push_left, push_ratio, push_right, push_tenths,
};
use crate::reasons::push_reason;
use crate::row::{Gains, Ran, TableRow};
use crate::words::{is_held_up, is_parallel, phrase, word};
use k_advise_verdicts::{Verdict, share, tenths};
use k_ending::{End, name};
use k_num::NoMemory;
use k_optab::Region;
use k_selfpar::Frac;
use k_text::{push, push_named, push_number, push_place};
use std::alloc::Global;

/// How the run ended.
fn push_end(text: &mut Vec<u8>, end: End) -> Result<(), NoMemory>
    ensures { OnOk result (text.new.items ≡ text.old.items ++ spec.end_text end) }
{
    match end {
        End::Returned(value) => push_named(text, "exit ", value),
        End::Trapped(trap, place) => {
            push(text, name(trap))?;
            push(text, " at ")?;
            push_place(text, place)
        }
        End::OutOfSteps => push(text, "out of steps"),
    }
}

/// How the run ended, and behind how many operations.
#[tactic(auto, unfolding(crate::specs::Table::ending_text))]
fn push_ending(
    alloc: Global,
    text: &mut Vec<u8>,
    end: End,
    between: &str,
    ops: u64,
    behind: &str,
) -> Result<(), NoMemory>
    ensures { OnOk result (text.new.items ≡ text.old.items ++ spec.ending_text end between.now ops behind.now) }
{
    push_end(text, end)?;
    push(text, between)?;
    push_count(alloc, text, ops)?;
    push(text, behind)
}

/// That only a part of the run is told, where that is so.
#[tactic(auto, unfolding(crate::specs::Table::part_text))]
fn push_part(text: &mut Vec<u8>, end: End) -> Result<(), NoMemory>
    ensures { OnOk result (text.new.items ≡ text.old.items ++ spec.part_text end) }
{
    match end {
        End::Returned(_value) => Ok(()),
        _ => push(text, ", and the rest of the run is not told"),
    }
}

/// What the operations come to.
#[tactic(auto, unfolding(crate::specs::Table::sums_text))]
fn push_sums(alloc: Global, text: &mut Vec<u8>, ran: &Ran) -> Result<(), NoMemory>
    ensures { OnOk result (text.new.items ≡ text.old.items ++ spec.sums_text ran.now) }
{
    push_count_between(alloc, text, "\nwork ", ran.work, ", critical path ")?;
    push_count_between(alloc, text, "", ran.path, "\n\n")
}

/// How what ran ended, and whether that is a part of it.
#[tactic(auto, unfolding(crate::specs::Table::head_text))]
fn push_head(
    alloc: Global,
    text: &mut Vec<u8>,
    ran: &Ran,
    between: &str,
    before: &str,
    behind: &str,
) -> Result<(), NoMemory>
    ensures { OnOk result (text.new.items ≡ text.old.items ++ spec.head_text ran.now between.now before.now behind.now) }
{
    push(text, ran.file.as_str())?;
    push(text, between)?;
    push_ending(alloc, text, ran.end, before, ran.ops, behind)?;
    push_part(text, ran.end)
}

/// The line on which a region begins; 0 where there is none.
fn line_of(regions: &[Region], number: u32) -> u32
    ensures { result ≡ spec.line_of regions.now number }
{
    match regions.get(number as usize) {
        None => 0,
        Some(region) => region.place.line,
    }
}

/// The first loop that is to be made parallel.
fn first_parallel(rows: &[TableRow]) -> Option<&TableRow>
    ensures { option_copied result ≡ spec.first_parallel rows.now }
{
    let mut rest = rows;
    while let Some((row, more)) = rest.split_first() {
        if is_parallel(row.verdict) {
            return Some(row);
        }
        rest = more;
    }
    None
}

/// Where to begin, and what that brings.
#[tactic(auto, unfolding(crate::specs::Table::begin_text))]
fn push_begin(text: &mut Vec<u8>, line: u32, gain: Frac) -> Result<(), NoMemory>
    ensures { OnOk result (text.new.items ≡ text.old.items ++ spec.begin_text line gain) }
{
    push_named(text, "begin with line ", line)?;
    push(text, ", which makes the program ")?;
    push_ratio(text, gain)?;
    push(text, " times as fast.\n\n")
}

/// That nothing is gained, and what the heaviest loop does.
#[tactic(auto, unfolding(crate::specs::Table::nothing_text))]
fn push_nothing(text: &mut Vec<u8>, regions: &[Region], rows: &[TableRow]) -> Result<(), NoMemory>
    ensures { OnOk result (text.new.items ≡ text.old.items ++ spec.nothing_text regions.now rows.now) }
{
    push(text, "nothing is gained: ")?;
    let Some((row, _more)) = rows.split_first() else {
        return push(text, "no loop takes a hundredth of the work.\n\n");
    };
    push_named(text, "the loop of line ", line_of(regions, row.region))?;
    push(text, " ")?;
    push(text, phrase(row.verdict))?;
    push(text, ".\n\n")
}

/// Where to begin, or that there is nowhere.
#[tactic(auto, unfolding(crate::specs::Table::sentence))]
fn push_sentence(
    text: &mut Vec<u8>,
    threads: u64,
    regions: &[Region],
    rows: &[TableRow],
) -> Result<(), NoMemory>
    ensures { OnOk result (text.new.items ≡ text.old.items ++ spec.sentence threads regions.now rows.now) }
{
    push_named(text, "With ", threads)?;
    push(text, " threads ")?;
    match first_parallel(rows) {
        None => push_nothing(text, regions, rows),
        Some(row) => push_begin(text, line_of(regions, row.region), row.gain),
    }
}

/// A ratio at the right of a column.
#[tactic(auto, unfolding(crate::specs::Table::ratio_cell))]
fn push_ratio_cell(
    alloc: Global,
    text: &mut Vec<u8>,
    width: usize,
    ratio: Frac,
) -> Result<(), NoMemory>
    ensures { OnOk result (text.new.items ≡ text.old.items ++ spec.ratio_cell width ratio) }
{
    let mut cell = Vec::new(alloc);
    push_ratio(&mut cell, ratio)?;
    push_right(text, width, cell.as_slice())
}

/// What each plan brings, and the heads of the columns below.
#[tactic(auto, unfolding(crate::specs::Table::gains_text))]
fn push_gains(alloc: Global, text: &mut Vec<u8>, gains: Gains) -> Result<(), NoMemory>
    ensures { OnOk result (text.new.items ≡ text.old.items ++ spec.gains_text gains) }
{
    push(
        text,
        "threads               2       4       8      16\ntimes as fast  ",
    )?;
    push_ratio_cell(alloc, text, 8, gains.two)?;
    push_ratio_cell(alloc, text, 8, gains.four)?;
    push_ratio_cell(alloc, text, 8, gains.eight)?;
    push_ratio_cell(alloc, text, 8, gains.sixteen)?;
    push(
        text,
        "\n\n  share  self-par.  iterations  faster  verdict      loop\n",
    )
}

/// Tenths at the right of a column, with a sign behind them.
#[tactic(auto, unfolding(crate::specs::Table::tenths_cell))]
fn push_tenths_cell(
    alloc: Global,
    text: &mut Vec<u8>,
    width: usize,
    tenths: u128,
    sign: &str,
) -> Result<(), NoMemory>
    ensures { OnOk result (text.new.items ≡ text.old.items ++ spec.tenths_cell width tenths sign.now) }
{
    let mut cell = Vec::new(alloc);
    push_tenths(&mut cell, tenths)?;
    push(&mut cell, sign)?;
    push_right(text, width, cell.as_slice())
}

/// Which line's loop a loop stands inside of.
fn push_outer(text: &mut Vec<u8>, regions: &[Region], verdict: Verdict) -> Result<(), NoMemory>
    ensures { OnOk result (text.new.items ≡ text.old.items ++ spec.outer regions.now verdict) }
{
    match verdict {
        Verdict::Inside { pick } => push_named(text, " ", line_of(regions, pick)),
        _ => Ok(()),
    }
}

/// The verdict on a loop, in its column.
#[tactic(auto, unfolding(crate::specs::Table::verdict_cell))]
fn push_verdict(
    alloc: Global,
    text: &mut Vec<u8>,
    regions: &[Region],
    row: &TableRow,
) -> Result<(), NoMemory>
    ensures { OnOk result (text.new.items ≡ text.old.items ++ spec.verdict_cell regions.now row.now.verdict) }
{
    let mut cell = Vec::new(alloc);
    push(&mut cell, word(row.verdict))?;
    push_outer(&mut cell, regions, row.verdict)?;
    push(text, "  ")?;
    push_left(text, 13, cell.as_slice())
}

/// Where a region stands: file, line and function.
fn push_region(text: &mut Vec<u8>, file: &str, region: &Region) -> Result<(), NoMemory>
    ensures { OnOk result (text.new.items ≡ text.old.items ++ spec.where_text file.now (Some region.now)) }
{
    push(text, file)?;
    push_named(text, ":", region.place.line)?;
    push(text, " ")?;
    push(text, region.func.as_str())
}

/// Where the region of a number stands, where there is one.
fn push_where(
    text: &mut Vec<u8>,
    file: &str,
    regions: &[Region],
    number: u32,
) -> Result<(), NoMemory>
    ensures { OnOk result (text.new.items ≡ text.old.items ++ spec.where_text file.now (slice_get regions.now number)) }
{
    match regions.get(number as usize) {
        None => Ok(()),
        Some(region) => push_region(text, file, region),
    }
}

/// The loop around a loop.
fn push_around(text: &mut Vec<u8>, regions: &[Region], around: Option<u32>) -> Result<(), NoMemory>
    ensures { OnOk result (text.new.items ≡ text.old.items ++ spec.around_text regions.now around) }
{
    match around {
        None => Ok(()),
        Some(number) => push_named(text, ", in line ", line_of(regions, number)),
    }
}

/// The line of a loop.
#[tactic(auto, unfolding(crate::specs::Table::row_text))]
fn push_row(
    alloc: Global,
    text: &mut Vec<u8>,
    ran: &Ran,
    regions: &[Region],
    row: &TableRow,
) -> Result<(), NoMemory>
    ensures { OnOk result (text.new.items ≡ text.old.items ++ spec.row_text ran.now regions.now row.now) }
{
    push_tenths_cell(alloc, text, 7, share(row.work, ran.work), "%")?;
    push_ratio_cell(alloc, text, 11, row.sp)?;
    push_tenths_cell(alloc, text, 12, tenths(row.turns, row.instances), "")?;
    push_ratio_cell(alloc, text, 8, row.gain)?;
    push_verdict(alloc, text, regions, row)?;
    push_where(text, ran.file.as_str(), regions, row.region)?;
    push_around(text, regions, row.around)?;
    push(text, "\n")
}

/// The lines of loops.
fn push_rows(
    alloc: Global,
    text: &mut Vec<u8>,
    ran: &Ran,
    regions: &[Region],
    rows: &[TableRow],
) -> Result<(), NoMemory>
    ensures { OnOk result (text.new.items ≡ text.old.items ++ flat_map (spec.row_text ran.now regions.now) rows.now) }
{
    for row in rows {
        push_row(alloc, text, ran, regions, row)?;
    }
    Ok(())
}

/// What to write before a loop that is to be made parallel.
#[tactic(auto, unfolding(crate::specs::Table::pragma_text))]
fn push_pragma(
    text: &mut Vec<u8>,
    file: &str,
    regions: &[Region],
    row: &TableRow,
) -> Result<(), NoMemory>
    ensures { OnOk result (text.new.items ≡ text.old.items ++ spec.pragma_text file.now regions.now row.now) }
{
    if !is_parallel(row.verdict) {
        return Ok(());
    }
    push_where(text, file, regions, row.region)?;
    push(text, "\n  ")?;
    push(text, row.pragma.as_str())?;
    push(text, "\n")
}

/// What to write before each loop that is to be made parallel.
fn push_each_pragma(
    text: &mut Vec<u8>,
    file: &str,
    regions: &[Region],
    rows: &[TableRow],
) -> Result<(), NoMemory>
    ensures { OnOk result (text.new.items ≡ text.old.items ++ flat_map (spec.pragma_text file.now regions.now) rows.now) }
{
    for row in rows {
        push_pragma(text, file, regions, row)?;
    }
    Ok(())
}

/// Whether a loop is to be made parallel.
fn is_any_parallel(rows: &[TableRow]) -> bool
    ensures { result ≡ list_any spec.goes_parallel rows.now }
{
    rows.iter().any(|row| is_parallel(row.verdict))
}

/// What to write, if something is to be written.
#[tactic(auto, unfolding(crate::specs::Table::pragmas))]
fn push_pragmas(
    text: &mut Vec<u8>,
    head: &str,
    file: &str,
    regions: &[Region],
    rows: &[TableRow],
) -> Result<(), NoMemory>
    ensures { OnOk result (text.new.items ≡ text.old.items ++ spec.pragmas head.now file.now regions.now rows.now) }
{
    if is_any_parallel(rows) {
        push(text, head)?;
        push_each_pragma(text, file, regions, rows)
    } else {
        Ok(())
    }
}

/// What stands in the way of a loop, if something does.
#[tactic(auto, unfolding(crate::specs::Table::block))]
fn push_block(
    alloc: Global,
    text: &mut Vec<u8>,
    file: &str,
    regions: &[Region],
    source: &[u8],
    row: &TableRow,
) -> Result<(), NoMemory>
    ensures { OnOk result (text.new.items ≡ text.old.items ++ spec.block file.now regions.now source.now row.now) }
{
    if !is_held_up(row.verdict) {
        return Ok(());
    }
    push(text, "\n")?;
    push_where(text, file, regions, row.region)?;
    push(text, ": ")?;
    push(text, word(row.verdict))?;
    push(text, ", it ")?;
    push(text, phrase(row.verdict))?;
    push(text, "\n")?;
    push_reason(alloc, text, source, row.verdict, row.name.as_str())
}

/// What stands in the way of each loop.
fn push_each_block(
    alloc: Global,
    text: &mut Vec<u8>,
    file: &str,
    regions: &[Region],
    source: &[u8],
    rows: &[TableRow],
) -> Result<(), NoMemory>
    ensures { OnOk result (text.new.items ≡ text.old.items ++ flat_map (spec.block file.now regions.now source.now) rows.now) }
{
    for row in rows {
        push_block(alloc, text, file, regions, source, row)?;
    }
    Ok(())
}

/// Whether something stands in the way of a loop.
fn is_any_held_up(rows: &[TableRow]) -> bool
    ensures { result ≡ list_any spec.stands_still rows.now }
{
    rows.iter().any(|row| is_held_up(row.verdict))
}

/// What stands in the way, if something does.
#[tactic(auto, unfolding(crate::specs::Table::blocks))]
fn push_blocks(
    alloc: Global,
    text: &mut Vec<u8>,
    head: &str,
    file: &str,
    regions: &[Region],
    source: &[u8],
    rows: &[TableRow],
) -> Result<(), NoMemory>
    ensures { OnOk result (text.new.items ≡ text.old.items ++ spec.blocks head.now file.now regions.now source.now rows.now) }
{
    if is_any_held_up(rows) {
        push(text, head)?;
        push_each_block(alloc, text, file, regions, source, rows)
    } else {
        Ok(())
    }
}

/// The lines of the loops, what to write, and what stands in the way.
#[tactic(auto, unfolding(crate::specs::Table::loops_text))]
fn push_loops(
    alloc: Global,
    text: &mut Vec<u8>,
    ran: &Ran,
    regions: &[Region],
    rows: &[TableRow],
    source: &[u8],
) -> Result<(), NoMemory>
    ensures { OnOk result (text.new.items ≡ text.old.items ++ spec.loops_text ran.now regions.now rows.now source.now) }
{
    let file = ran.file.as_str();
    push_rows(alloc, text, ran, regions, rows)?;
    push_pragmas(text, "\nWhat to write\n\n", file, regions, rows)?;
    push_blocks(
        alloc,
        text,
        "\nWhat stands in the way\n",
        file,
        regions,
        source,
        rows,
    )
}

/// The table of a run of a source with these regions: what ran, where to begin, what a plan for 2, 4, 8 and 16 threads brings, a line for each of these loops,
/// what to write, and what stands in the way.
#[tactic(auto, unfolding(crate::specs::Table::table_text))]
pub fn table_text(
    alloc: Global,
    ran: &Ran,
    gains: Gains,
    regions: &[Region],
    rows: &[TableRow],
    source: &[u8],
) -> Result<Vec<u8>, NoMemory>
    ensures { IfOk result (λ text. text.items ≡ spec.table_text ran.now gains regions.now rows.now source.now) }
{
    let mut text = Vec::new(alloc);
    push_head(alloc, &mut text, ran, ": ", " after ", " operations")?;
    push_sums(alloc, &mut text, ran)?;
    push_sentence(&mut text, ran.threads, regions, rows)?;
    push_gains(alloc, &mut text, gains)?;
    push_loops(alloc, &mut text, ran, regions, rows, source)?;
    Ok(text)
}
