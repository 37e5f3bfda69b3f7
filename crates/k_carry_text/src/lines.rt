//! The lines of loops and of their pairs.
ghost use Rattle.std.specs.Prelude.{◌≡◌, ◌++◌, IfOk, OnOk, length, slice_get};
ghost use Rattle.std.specs.List.{flat_map};
ghost use Rattle.k_text.specs.Texts.{written};
ghost use Rattle.k_carry_text.specs.Lines.{carried_text, count_line, loop_lines, pair_line};

use k_carry_pairs::{LoopPairs, Pair};
use k_num::NoMemory;
use k_optab::Region;
use k_text::{push, push_line, push_place, push_region};
use std::alloc::Global;

/// The line of a pair.
fn push_pair(text: &mut Vec<u8>, pair: Pair) -> Result<(), NoMemory>
    ensures { OnOk result (text.new.items ≡ text.old.items ++ pair_line pair) }
{
    push_place(text, pair.from)?;
    push(text, " -> ")?;
    push_place(text, pair.to)?;
    push(text, "\n")
}

/// The lines of pairs.
fn push_pairs(text: &mut Vec<u8>, pairs: &[Pair]) -> Result<(), NoMemory>
    ensures { OnOk result (text.new.items ≡ text.old.items ++ flat_map pair_line pairs.now) }
{
    for pair in pairs {
        push_pair(text, *pair)?;
    }
    Ok(())
}

/// The line of a loop that has so many pairs.
fn push_count(text: &mut Vec<u8>, region: &Region, count: usize) -> Result<(), NoMemory>
    ensures { OnOk result (text.new.items ≡ text.old.items ++ count_line count region.now) }
{
    push_region(text, region)?;
    push_line(text, " pairs ", count)
}

/// The line of the loop of this region that has so many pairs, where there is the region.
fn push_found(
    text: &mut Vec<u8>,
    regions: &[Region],
    number: u32,
    count: usize,
) -> Result<(), NoMemory>
    ensures { OnOk result (text.new.items ≡ text.old.items ++ written (count_line count) (slice_get regions.now number)) }
{
    match regions.get(number as usize) {
        Some(region) => push_count(text, region, count),
        None => Ok(()),
    }
}

/// The lines of a loop and of its pairs.
fn push_loop(text: &mut Vec<u8>, regions: &[Region], told: &LoopPairs) -> Result<(), NoMemory>
    ensures { OnOk result (text.new.items ≡ text.old.items ++ loop_lines regions.now told.now) }
{
    push_found(text, regions, told.region, told.pairs.len())?;
    push_pairs(text, told.pairs.as_slice())
}

/// The lines of loops.
fn push_loops(text: &mut Vec<u8>, regions: &[Region], loops: &[LoopPairs]) -> Result<(), NoMemory>
    ensures { OnOk result (text.new.items ≡ text.old.items ++ flat_map (loop_lines regions.now) loops.now) }
{
    for told in loops {
        push_loop(text, regions, told)?;
    }
    Ok(())
}

/// What the loops of a run of a program with these regions carry: a line on top, and for each loop its function and its place, how many pairs of
/// places it has, and a line for each of them, from where the value was made to where it was used.
pub fn carried_text(
    alloc: Global,
    regions: &[Region],
    loops: &[LoopPairs],
) -> Result<Vec<u8>, NoMemory>
    ensures { IfOk result (λ text. text.items ≡ carried_text regions.now loops.now) }
{
    let mut text = Vec::new(alloc);
    push(&mut text, "== carried ==\n")?;
    push_loops(&mut text, regions, loops)?;
    Ok(text)
}
