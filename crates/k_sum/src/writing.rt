//! The file of a sum, written line by line.
ghost use Rattle.std.specs.Prelude.{◌≡◌, ◌++◌, IfOk, OnOk};
ghost use Rattle.k_dict_saved.specs.FileText.{entries_text, entry_line, numbers_text, region_line, regions_text};
ghost use Rattle.k_sum.specs.SumText.{exit_line, exits_text, roots_text, runs_text, sum_text};

use crate::exits::Exit;
use crate::sum::Sum;
use k_dict_entries::{Entry, Run};
use k_num::NoMemory;
use k_optab::Region;
use k_text::{push, push_line, push_named, push_number, push_region, push_runs};
use std::alloc::Global;

/// A first text, and the line of how many runs there were.
fn push_head(text: &mut Vec<u8>, first: &str, runs: u64) -> Result<(), NoMemory>
    ensures { OnOk result (text.new.items ≡ text.old.items ++ runs_text first.now runs) }
{
    push(text, first)?;
    push_line(text, "runs ", runs)
}

/// The line of an exit value.
fn push_exit(text: &mut Vec<u8>, exit: &Exit) -> Result<(), NoMemory>
    ensures { OnOk result (text.new.items ≡ text.old.items ++ exit_line exit.now) }
{
    push_number(text, exit.value)?;
    push_line(text, " ", exit.runs)
}

/// The lines of exit values.
fn push_exits(text: &mut Vec<u8>, exits: &[Exit]) -> Result<(), NoMemory>
    ensures { OnOk result (text.new.items ≡ text.old.items ++ exits_text exits.now) }
{
    push_line(text, "exits ", exits.len())?;
    for exit in exits {
        push_exit(text, exit)?;
    }
    Ok(())
}

/// The line of a region.
fn push_region_line(text: &mut Vec<u8>, region: &Region) -> Result<(), NoMemory>
    ensures { OnOk result (text.new.items ≡ text.old.items ++ region_line region.now) }
{
    push_region(text, region)?;
    push(text, "\n")
}

/// The lines of regions.
fn push_regions(text: &mut Vec<u8>, regions: &[Region]) -> Result<(), NoMemory>
    ensures { OnOk result (text.new.items ≡ text.old.items ++ regions_text regions.now) }
{
    push_line(text, "regions ", regions.len())?;
    for region in regions {
        push_region_line(text, region)?;
    }
    Ok(())
}

/// The numbers of an entry.
fn push_numbers(text: &mut Vec<u8>, entry: &Entry) -> Result<(), NoMemory>
    ensures { OnOk result (text.new.items ≡ text.old.items ++ numbers_text entry.now) }
{
    push_number(text, entry.region)?;
    push_named(text, " ", entry.work)?;
    push_named(text, " ", entry.path)
}

/// The line of an entry.
fn push_entry(text: &mut Vec<u8>, entry: &Entry) -> Result<(), NoMemory>
    ensures { OnOk result (text.new.items ≡ text.old.items ++ entry_line entry.now) }
{
    push_numbers(text, entry)?;
    push_runs(text, entry.runs.as_slice())?;
    push(text, "\n")
}

/// The lines of entries.
fn push_entries(text: &mut Vec<u8>, entries: &[Entry]) -> Result<(), NoMemory>
    ensures { OnOk result (text.new.items ≡ text.old.items ++ entries_text entries.now) }
{
    push_line(text, "entries ", entries.len())?;
    for entry in entries {
        push_entry(text, entry)?;
    }
    Ok(())
}

/// The line of the roots.
fn push_roots(text: &mut Vec<u8>, roots: &[Run]) -> Result<(), NoMemory>
    ensures { OnOk result (text.new.items ≡ text.old.items ++ roots_text roots.now) }
{
    push(text, "roots")?;
    push_runs(text, roots)?;
    push(text, "\n")
}

/// The file of a sum.
pub fn write(alloc: Global, sum: &Sum) -> Result<Vec<u8>, NoMemory>
    ensures { IfOk result (λ text. text.items ≡ sum_text sum.now) }
{
    let mut text = Vec::new(alloc);
    push_head(&mut text, "kremlin sum 1\n", sum.runs)?;
    push_exits(&mut text, sum.exits.as_slice())?;
    push_line(&mut text, "ops ", sum.ops)?;
    push_regions(&mut text, sum.regions.as_slice())?;
    push_entries(&mut text, sum.dict.entries())?;
    push_roots(&mut text, sum.roots.as_slice())?;
    push(&mut text, "end\n")?;
    Ok(text)
}
