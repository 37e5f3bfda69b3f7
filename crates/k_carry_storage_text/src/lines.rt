//! The lines of loops and of their storage pairs.
ghost use Rattle.std.specs.Prelude.{◌≡◌, ◌++◌, IfOk, OnOk, length, slice_get};
ghost use Rattle.std.specs.List.{flat_map};
ghost use Rattle.k_text.specs.Texts.{written};
ghost use Rattle.k_carry_text.specs.Lines.{count_line};
ghost use Rattle.k_carry_storage_text.specs.Lines.{kind_text, loop_lines, shared_line, storage_text};

use k_carry_storage_pairs::{LoopStorage, Shared, Sharing};
use k_num::NoMemory;
use k_optab::Region;
use k_text::{push, push_line, push_place, push_region};
use std::alloc::Global;

/// The word of a kind.
fn push_kind(text: &mut Vec<u8>, kind: Sharing) -> Result<(), NoMemory>
    ensures { OnOk result (text.new.items ≡ text.old.items ++ kind_text kind) }
{
    match kind {
        Sharing::Anti => push(text, "anti "),
        Sharing::Output => push(text, "output "),
    }
}

/// The line of a storage pair.
fn push_shared(text: &mut Vec<u8>, shared: Shared) -> Result<(), NoMemory>
    ensures { OnOk result (text.new.items ≡ text.old.items ++ shared_line shared) }
{
    push_kind(text, shared.kind)?;
    push_place(text, shared.from)?;
    push(text, " -> ")?;
    push_place(text, shared.to)?;
    push(text, "\n")
}

/// The lines of storage pairs.
fn push_pairs(text: &mut Vec<u8>, pairs: &[Shared]) -> Result<(), NoMemory>
    ensures { OnOk result (text.new.items ≡ text.old.items ++ flat_map shared_line pairs.now) }
{
    for shared in pairs {
        push_shared(text, *shared)?;
    }
    Ok(())
}

/// The line of a loop that has so many storage pairs.
fn push_count(text: &mut Vec<u8>, region: &Region, count: usize) -> Result<(), NoMemory>
    ensures { OnOk result (text.new.items ≡ text.old.items ++ count_line count region.now) }
{
    push_region(text, region)?;
    push_line(text, " pairs ", count)
}

/// The line of the loop of this region that has so many storage pairs, where there is the region.
fn push_found(
    text: &mut Vec<u8>,
    regions: &[Region],
    number: u32,
    count: usize,
) -> Result<(), NoMemory>
    ensures { OnOk result (text.new.items ≡ text.old.items ++ written (count_line count) (slice_get regions.now number)) }
{
    match regions.get(number as usize) {
        Some(region) => push_count(text, region, count),
        None => Ok(()),
    }
}

/// The lines of a loop and of its storage pairs.
fn push_loop(text: &mut Vec<u8>, regions: &[Region], told: &LoopStorage) -> Result<(), NoMemory>
    ensures { OnOk result (text.new.items ≡ text.old.items ++ loop_lines regions.now told.now) }
{
    push_found(text, regions, told.region, told.pairs.len())?;
    push_pairs(text, told.pairs.as_slice())
}

/// The lines of loops.
fn push_loops(text: &mut Vec<u8>, regions: &[Region], loops: &[LoopStorage]) -> Result<(), NoMemory>
    ensures { OnOk result (text.new.items ≡ text.old.items ++ flat_map (loop_lines regions.now) loops.now) }
{
    for told in loops {
        push_loop(text, regions, told)?;
    }
    Ok(())
}

/// What the turns of the loops of a run of a program with these regions share: a line on top, and for each loop its function and its place, how many storage
/// pairs it has, and a line for each of them, with its kind, from where an element was loaded or stored to first to where it was stored to later.
pub fn storage_text(
    alloc: Global,
    regions: &[Region],
    loops: &[LoopStorage],
) -> Result<Vec<u8>, NoMemory>
    ensures { IfOk result (λ text. text.items ≡ storage_text regions.now loops.now) }
{
    let mut text = Vec::new(alloc);
    push(&mut text, "== storage ==\n")?;
    push_loops(&mut text, regions, loops)?;
    Ok(text)
}
