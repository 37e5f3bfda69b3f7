//! The line of the roots.
ghost use Rattle.std.specs.Prelude.{◌≡◌, ◌<◌, ◌≤◌, ◌↔◌, IsTrue, IfOk, length};
ghost use Rattle.k_dict_entries.specs.Entries.{NameBelow, NameEarlier};
ghost use Rattle.k_dict_entries.specs.Rules.{NameRegions};
ghost use Rattle.k_dict_entries.specs.Tallies.{total as count_all};
ghost use Rattle.k_dict_saved.specs.Extents.{capped, extents_of, no_sums, sums_from};
ghost use Rattle.k_dict_saved.specs.Reading.{AllNameBelow, marked, marked_all, seen};
ghost use Rattle.k_sum_read.specs.Reading.{AreWithin, FoundRoots, NoneIsLeft, are_all};
ghost use Rattle.k_sum_saved.specs.SumLines.{AreOfMain, AreRoots};

use k_dict_entries::{Entry, Run};
use k_dict_saved::{Extent, Stop, Sums, are_rising, is_main, mark, mark_all, runs, sums_of};
use k_num::{NoMemory, Seq};
use k_optab::Region;
use k_scan::word;
use k_sum_saved::are_of_region;
use std::alloc::Global;

/// The greatest work of all runs together.
const MOST_WORK: u64 = 17_592_186_044_416;

/// The greatest number of instances of all runs together.
const MOST_INSTANCES: u64 = 576_460_752_303_423_488;

/// How many roots there are, or the greatest number of 64 bits where it is no less.
fn count_roots(roots: &[Run]) -> u64
    ensures { result ≡ capped (count_all roots.now) }
{
    let mut count: u64 = 0;
    let mut rest = roots;
    while let Some((root, later)) = rest.split_first() {
        count = count.saturating_add(root.count);
        rest = later;
    }
    count
}

/// Whether roots, of which there are some, are of one region, which is the function main.
fn are_of_main(regions: &[Region], entries: &[Entry], roots: &[Run]) -> bool
    requires below { NameBelow (length entries.now) roots.now }
    requires named { NameRegions (length regions.now) entries.now }
    requires some { 0 < count_all roots.now }
    ensures { IsTrue result ↔ AreOfMain regions.now entries.now roots.now }
{
    match roots.split_first() {
        None => false,
        Some((first, _)) => {
            let region = entries[first.entry as usize].region;
            if is_main(&regions[region as usize]) {
                are_of_region(region, entries, roots)
            } else {
                false
            }
        }
    }
}

/// Whether all are marked.
fn are_all(marks: &[bool]) -> bool
    ensures { result ≡ are_all marks.now }
{
    let mut rest = marks;
    while let Some((mark, later)) = rest.split_first() {
        if !*mark {
            return false;
        }
        rest = later;
    }
    true
}

/// Whether each entry is named by another or is a root, where nothing is marked yet.
fn marks_tell(marks: &mut [bool], entries: &[Entry], roots: &[Run]) -> bool
    requires entries { AllNameBelow (length marks.old) entries.now }
    requires roots { NameBelow (length marks.old) roots.now }
    ensures { result ≡ are_all (marked (marked_all marks.old entries.now) roots.now) }
{
    mark_all(marks, entries);
    mark(marks, roots);
    are_all(marks)
}

/// Whether no entry is left over.
fn is_none_left(alloc: Global, entries: &[Entry], roots: &[Run]) -> Result<bool, NoMemory>
    requires earlier { NameEarlier entries.now }
    requires roots { NameBelow (length entries.now) roots.now }
    ensures { IfOk result (λ none. IsTrue none ↔ NoneIsLeft entries.now roots.now) }
{
    let mut marks = vec![in alloc; false; entries.len()]?;
    Ok(marks_tell(&mut marks, entries, roots))
}

/// Whether roots of so many runs rise, and what they have together is within the limits.
fn are_within(runs: u64, high: u32, sums: Sums, roots: &[Run]) -> bool
    requires { high ≤ 1048576 }
    ensures { IsTrue result ↔ AreWithin runs high sums roots.now }
{
    are_rising(high, roots)
        && count_roots(roots) == runs
        && sums.works <= MOST_WORK
        && sums.instances <= MOST_INSTANCES
}

/// Whether roots of so many runs rise within the limits, and are of main.
fn may_be_roots(runs: u64, regions: &[Region], entries: &[Entry], sums: Sums, roots: &[Run]) -> bool
    requires some { 1 ≤ runs }
    requires few { length entries.now ≤ 1048576 }
    requires named { NameRegions (length regions.now) entries.now }
    requires below { NameBelow (length entries.now) roots.now }
    ensures { IsTrue result ↔ (AreWithin runs (length entries.now) sums roots.now × AreOfMain regions.now entries.now roots.now) }
{
    if are_within(runs, entries.len() as u32, sums, roots) {
        are_of_main(regions, entries, roots)
    } else {
        false
    }
}

/// Whether these are the roots of so many runs.
fn are_roots(
    alloc: Global,
    runs: u64,
    regions: &[Region],
    entries: &[Entry],
    sums: Sums,
    roots: &[Run],
) -> Result<bool, NoMemory>
    requires some { 1 ≤ runs }
    requires most { runs ≤ 4294967295 }
    requires few { length entries.now ≤ 1048576 }
    requires earlier { NameEarlier entries.now }
    requires named { NameRegions (length regions.now) entries.now }
    requires below { NameBelow (length entries.now) roots.now }
    requires sums { sums ≡ sums_from entries.now (extents_of entries.now) no_sums roots.now }
    ensures { IfOk result (λ are. IsTrue are ↔ AreRoots runs regions.now entries.now roots.now) }
{
    if may_be_roots(runs, regions, entries, sums, roots) {
        is_none_left(alloc, entries, roots)
    } else {
        Ok(false)
    }
}

/// The line of the roots of so many runs, and what their works come to.
pub(crate) fn roots_line<'a>(
    alloc: Global,
    count: u64,
    regions: &[Region],
    entries: &[Entry],
    extents: &[Extent],
    text: &'a [u8],
) -> Result<(Seq<Run>, u64, &'a [u8]), Stop>
    requires some { 1 ≤ count }
    requires most { count ≤ 4294967295 }
    requires few { length entries.now ≤ 1048576 }
    requires earlier { NameEarlier entries.now }
    requires named { NameRegions (length regions.now) entries.now }
    requires extents { extents.now ≡ extents_of entries.now }
    ensures { FoundRoots count regions.now entries.now text.now (seen (λ found. (found.0, found.1, found.2.now)) result) }
{
    let Some(roots_text) = word(b"roots", text) else {
        return Err(Stop::Wrong);
    };
    match runs(alloc, entries.len() as u32, roots_text) {
        Err(stop) => Err(stop),
        Ok((roots, rest)) => {
            let sums = sums_of(entries, extents, roots.as_slice());
            match are_roots(alloc, count, regions, entries, sums, roots.as_slice()) {
                Err(NoMemory) => {
                    drop(roots);
                    Err(Stop::Memory)
                }
                Ok(false) => {
                    drop(roots);
                    Err(Stop::Wrong)
                }
                Ok(true) => Ok((roots, sums.works, rest)),
            }
        }
    }
}
