//! The file of a saved profile, written line by line.
ghost use Rattle.std.specs.Prelude.{◌≡◌, ◌++◌, IfOk, OnOk};
ghost use Rattle.k_dict_saved.specs.FileText.{entries_text, entry_line, numbers_text, region_line, regions_text};
ghost use Rattle.k_dict_saved.specs.SavedText.{saved_text};

use crate::saved::Saved;
use k_dict_entries::Entry;
use k_num::NoMemory;
use k_optab::Region;
use k_text::{push, push_head, push_line, push_named, push_number, push_region, push_runs};
use std::alloc::Global;

/// The line of a region.
fn push_region_line(text: &mut Vec<u8>, region: &Region) -> Result<(), NoMemory>
    ensures { OnOk result (text.new.items ≡ text.old.items ++ region_line region.now) }
{
    push_region(text, region)?;
    push(text, "\n")
}

/// The lines of regions.
fn push_regions(text: &mut Vec<u8>, regions: &[Region]) -> Result<(), NoMemory>
    ensures { OnOk result (text.new.items ≡ text.old.items ++ regions_text regions.now) }
{
    push_line(text, "regions ", regions.len())?;
    for region in regions {
        push_region_line(text, region)?;
    }
    Ok(())
}

/// The numbers of an entry.
fn push_numbers(text: &mut Vec<u8>, entry: &Entry) -> Result<(), NoMemory>
    ensures { OnOk result (text.new.items ≡ text.old.items ++ numbers_text entry.now) }
{
    push_number(text, entry.region)?;
    push_named(text, " ", entry.work)?;
    push_named(text, " ", entry.path)
}

/// The line of an entry.
fn push_entry(text: &mut Vec<u8>, entry: &Entry) -> Result<(), NoMemory>
    ensures { OnOk result (text.new.items ≡ text.old.items ++ entry_line entry.now) }
{
    push_numbers(text, entry)?;
    push_runs(text, entry.runs.as_slice())?;
    push(text, "\n")
}

/// The lines of entries.
fn push_entries(text: &mut Vec<u8>, entries: &[Entry]) -> Result<(), NoMemory>
    ensures { OnOk result (text.new.items ≡ text.old.items ++ entries_text entries.now) }
{
    push_line(text, "entries ", entries.len())?;
    for entry in entries {
        push_entry(text, entry)?;
    }
    Ok(())
}

/// The file of a saved profile, in format 2.
pub fn write(alloc: Global, saved: &Saved) -> Result<Vec<u8>, NoMemory>
    ensures { IfOk result (λ text. text.items ≡ saved_text saved.now) }
{
    let mut text = Vec::new(alloc);
    push_head(&mut text, "kremlin 2\n", saved.exit, saved.ops)?;
    push_regions(&mut text, saved.regions.as_slice())?;
    push_entries(&mut text, saved.dict.entries())?;
    push(&mut text, "end\n")?;
    Ok(text)
}
