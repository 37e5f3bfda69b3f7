//! The end of the file.
ghost use Rattle.std.specs.Prelude.{◌≡◌, ◌≤◌, ◌↔◌, IsTrue, IfOk, length, codes};
ghost use Rattle.k_optab.specs.declared.region.RegionKind.TheVariants.{Func};
ghost use Rattle.k_dict_entries.specs.Entries.{NameBelow, NameEarlier};
ghost use Rattle.k_dict_saved.specs.Formats.{AreNamed};
ghost use Rattle.k_dict_saved.specs.Lines.{EndsInMain};
ghost use Rattle.k_dict_saved.specs.Reading as spec;

use k_dict_entries::{Entry, Run};
use k_num::NoMemory;
use k_optab::{Region, RegionKind};
use std::alloc::Global;

/// Whether a region is the function main.
pub fn is_main(region: &Region) -> bool
    ensures { IsTrue result ↔ ((region.now.kind ≡ Func) × (region.now.func ≡ codes "main")) }
{
    match region.kind {
        RegionKind::Func => region.func.as_str() == "main",
        RegionKind::Loop | RegionKind::Body => false,
    }
}

/// Whether the region of the last entry is the function main.
pub(crate) fn ends_in_main(regions: &[Region], entries: &[Entry]) -> bool
    ensures { IsTrue result ↔ EndsInMain regions.now entries.now }
{
    let Some((root, _)) = entries.split_last() else {
        return false;
    };
    let number = root.region as usize;
    number < regions.len() && is_main(&regions[number])
}

/// Marks the entries that runs name.
pub fn mark(marks: &mut [bool], runs: &[Run])
    requires { NameBelow (length marks.old) runs.now }
    ensures { marks.new ≡ spec.marked marks.old runs.now }
{
    let mut rest = runs;
    while let Some((run, later)) = rest.split_first() {
        marks[run.entry as usize] = true;
        rest = later;
    }
}

/// Marks the entries that others name.
pub fn mark_all(marks: &mut [bool], entries: &[Entry])
    requires { spec.AllNameBelow (length marks.old) entries.now }
    ensures { marks.new ≡ spec.marked_all marks.old entries.now }
{
    let mut rest = entries;
    while let Some((entry, later)) = rest.split_first() {
        mark(marks, entry.runs.as_slice());
        rest = later;
    }
}

/// Whether all are marked but the last.
fn are_marked(marks: &[bool]) -> bool
    ensures { result ≡ spec.are_marked marks.now }
{
    let mut rest = marks;
    while let Some((mark, later)) = rest.split_first() {
        if !*mark && !later.is_empty() {
            return false;
        }
        rest = later;
    }
    true
}

/// Whether each entry but the last is named by another, where nothing is marked yet.
fn marks_tell(marks: &mut [bool], entries: &[Entry]) -> bool
    requires { spec.AllNameBelow (length marks.old) entries.now }
    ensures { result ≡ spec.are_marked (spec.marked_all marks.old entries.now) }
{
    mark_all(marks, entries);
    are_marked(marks)
}

/// Whether each entry but the last is named by another.
pub(crate) fn are_named(alloc: Global, entries: &[Entry]) -> Result<bool, NoMemory>
    requires { NameEarlier entries.now }
    ensures { IfOk result (λ named. IsTrue named ↔ AreNamed entries.now) }
{
    let mut marks = vec![in alloc; false; entries.len()]?;
    Ok(marks_tell(&mut marks, entries))
}
