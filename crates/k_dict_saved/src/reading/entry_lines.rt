//! The lines of the entries.
ghost use Rattle.std.specs.Prelude.{◌≡◌, ◌<◌, ◌≤◌, ◌↔◌, IsTrue, OnOk, length, List};
ghost use Rattle.k_optab.specs.declared.region.Region.{Region as RegionValue};
ghost use Rattle.k_dict_entries.specs.Entries.{AreRuns, NameBelow};
ghost use Rattle.k_dict_saved.specs.Extents.{extents_of};
ghost use Rattle.k_dict_saved.specs.Formats.{AreMaximal, AreRunsOf};
ghost use Rattle.k_dict_saved.specs.Formats as spec;
ghost use Rattle.k_dict_saved.specs.Reading.{Adds, AllEntries, HasExtent, NextEntry, seen};

use crate::format::Format;
use crate::reading::extents::{Extent, extent_over, is_within, sums_of};
use crate::reading::lines::{MOST_RUNS, entry};
use crate::reading::stop::{Halt, Stop};
use k_dict_entries::{DictFault, Entry, EntryTable, Run};
use k_num::{NoMemory, Seq};
use std::alloc::Global;

/// Whether runs name entries below a number, by rising number, each once, with counts of at least 1.
pub fn are_rising(high: u32, runs: &[Run]) -> bool
    requires { high ≤ 1048576 }
    ensures { IsTrue result ↔ AreRuns 0 high runs.now }
{
    let mut low = 0;
    let mut rest = runs;
    while let Some((run, later)) = rest.split_first() {
        if run.entry < low || run.entry >= high || run.count == 0 {
            return false;
        }
        low = run.entry + 1;
        rest = later;
    }
    true
}

/// Whether runs name entries below a number, with counts of at least 1.
fn are_below(high: u32, runs: &[Run]) -> bool
    ensures { IsTrue result ↔ NameBelow high runs.now }
{
    let mut rest = runs;
    while let Some((run, later)) = rest.split_first() {
        if run.entry >= high || run.count == 0 {
            return false;
        }
        rest = later;
    }
    true
}

/// Whether neighbours are runs of different entries.
fn are_maximal(runs: &[Run]) -> bool
    ensures { IsTrue result ↔ AreMaximal runs.now }
{
    let mut rest = runs;
    while let Some((run, later)) = rest.split_first() {
        if !differs(*run, later) {
            return false;
        }
        rest = later;
    }
    true
}

/// Whether the run behind this one is of another entry.
fn differs(run: Run, later: &[Run]) -> bool
    ensures { IsTrue result ↔ spec.Differs run later.now }
{
    match later.split_first() {
        None => true,
        Some((next, _)) => run.entry != next.entry,
    }
}

/// Whether runs are those of an entry of this format behind so many others.
fn are_runs(format: Format, high: u32, runs: &[Run]) -> bool
    requires { high ≤ 1048576 }
    ensures { IsTrue result ↔ AreRunsOf format high runs.now }
{
    match format {
        Format::One => are_below(high, runs) && are_maximal(runs) && runs.len() <= MOST_RUNS,
        Format::Two => are_rising(high, runs),
    }
}

/// The extent of an entry that keeps within the rules.
fn extent_within(entries: &[Entry], extents: &[Extent], entry: &Entry) -> Option<Extent>
    requires runs { NameBelow (length entries.now) entry.now.runs }
    requires each { extents.now ≡ extents_of entries.now }
    ensures { HasExtent entries.now entry.now result }
{
    let sums = sums_of(entries, extents, entry.runs.as_slice());
    if is_within(entry, sums) {
        Some(extent_over(sums))
    } else {
        None
    }
}

/// An entry that keeps within the rules, added to those that are there.
fn add(table: &mut EntryTable, extents: &mut Seq<Extent>, entry: Entry) -> Result<(), Stop>
    requires room { length table.old < 1048576 }
    requires each { extents.old ≡ extents_of table.old }
    requires runs { NameBelow (length table.old) entry.runs }
    ensures answer { Adds table.old entry table.new result }
    ensures each { OnOk result (extents.new ≡ extents_of table.new) }
{
    let Some(extent) = extent_within(table.entries(), extents.as_slice(), &entry) else {
        drop(entry);
        return Err(Stop::Wrong);
    };
    let high = table.len();
    match table.intern(entry) {
        Err(DictFault::Memory) => Err(Stop::Memory),
        Err(DictFault::Full(_)) => Err(Stop::Wrong),
        Ok(number) => {
            if number < high {
                return Err(Stop::Wrong);
            }
            extents.push(extent)?;
            Ok(())
        }
    }
}

/// The line of an entry that may stand behind those that are there. It is added to them.
pub fn next_entry<'a>(
    alloc: Global,
    format: Format,
    regions: u32,
    table: &mut EntryTable,
    extents: &mut Seq<Extent>,
    text: &'a [u8],
) -> Result<&'a [u8], Stop>
    requires room { length table.old < 1048576 }
    requires each { extents.old ≡ extents_of table.old }
    ensures answer { NextEntry format regions table.old table.new text.now (seen (λ rest. rest.now) result) }
    ensures each { OnOk result (extents.new ≡ extents_of table.new) }
{
    let high = table.len();
    match entry(alloc, regions, high, text) {
        Err(stop) => Err(stop),
        Ok((entry, rest)) => {
            if are_runs(format, high, entry.runs.as_slice()) {
                match add(table, extents, entry) {
                    Err(stop) => Err(stop),
                    Ok(()) => Ok(rest),
                }
            } else {
                drop(entry);
                Err(Stop::Wrong)
            }
        }
    }
}

/// The lines of so many entries.
pub(crate) fn entries(
    alloc: Global,
    format: Format,
    regions: u32,
    count: u32,
    text: &[u8],
) -> Result<(EntryTable, &[u8]), Halt>
    requires { count ≤ 1048576 }
    ensures { (list : List RegionValue) → length list ≡ regions → AllEntries format list count text.now (seen (λ found. (found.0, found.1.now)) result) }
{
    let mut table = EntryTable::new(alloc);
    let mut extents = Seq::new(alloc);
    let mut rest = text;
    'lines: while table.len() < count {
        match next_entry(alloc, format, regions, &mut table, &mut extents, rest) {
            Err(Stop::Wrong) => return Err(Halt::Wrong(rest.len())),
            Err(Stop::Memory) => return Err(Halt::Memory),
            Ok(behind) => rest = behind,
        }
    }
    Ok((table, rest))
}
