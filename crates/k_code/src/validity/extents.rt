//! Where functions begin and end.
ghost use Rattle.std.specs.Prelude.{◌≡◌, ◌-◌, ◌<◌, ◌≤◌, length, take, drop, replicate, slice_get, slice_set, Some, IfOk, true, false};
ghost use Rattle.k_code.specs.Decides.{AreExtents, AreMarks, IsExtent, IsExtentOf, IsNext, Marks};

use super::registers::all_needed;
use crate::{Code, CodeFunc, Instr};
use k_num::NoMemory;
use std::alloc::Global;

/// Where the instructions of a function end, and how many registers they need.
#[derive(Clone, Copy, Debug, PartialEq, Eq)]
pub(super) struct Extent {
    /// The number of the first instruction behind them.
    pub end: usize,
    /// How many registers they need.
    pub registers: u64,
}

/// Of each instruction with which a function begins, the extent of that function. Each instruction is looked at twice.
pub(super) fn extents(alloc: Global, code: &Code) -> Result<Vec<Option<Extent>>, NoMemory>
    ensures { IfOk result (λ list. AreExtents code.now list.items) }
{
    let marks = marks(alloc, code)?;
    let mut list = Vec::new(alloc);
    for entry in 0..code.instrs.len() {
        list.push(extent_at(code, marks.as_slice(), entry))?;
    }
    Ok(list)
}

/// The extent of the function that begins with the instruction of this number, if there is one.
fn extent_at(code: &Code, marks: &[bool], entry: usize) -> Option<Extent>
    requires marks { AreMarks code.now marks.now }
    requires entry { entry < length code.now.instrs }
    ensures { IsExtentOf code.now entry result }
{
    if is_marked(marks, entry) {
        return Some(extent_from(code, marks, entry));
    }
    None
}

/// Whether a mark is set.
fn is_marked(marks: &[bool], number: usize) -> bool
    requires { number < length marks.now }
    ensures { slice_get marks.now number ≡ Some result }
{
    marks[number]
}

/// The extent of a function with this entry.
fn extent_from(code: &Code, marks: &[bool], entry: usize) -> Extent
    requires marks { AreMarks code.now marks.now }
    requires entry { entry < length code.now.instrs }
    ensures { IsExtent code.now entry result }
{
    let end = next_mark(marks, entry);
    let registers = all_needed(part(code.instrs.as_slice(), entry, end));
    Extent { end, registers }
}

/// The instructions from one to another.
pub(super) fn part(instrs: &[Instr], start: usize, end: usize) -> &[Instr]
    requires start { start ≤ end }
    requires end { end ≤ length instrs.now }
    ensures { result.now ≡ take (end - start) (drop start instrs.now) }
{
    &instrs[start..end]
}

/// The next mark behind the first, or the number of all.
fn next_mark(marks: &[bool], first: usize) -> usize
    requires { first < length marks.now }
    ensures { IsNext marks.now first result }
{
    for next in first + 1..marks.len() {
        if marks[next] {
            return next;
        }
    }
    marks.len()
}

/// Of each instruction, whether a function begins with it.
fn marks(alloc: Global, code: &Code) -> Result<Vec<bool>, NoMemory>
    ensures { IfOk result (λ marks. AreMarks code.now marks.items) }
{
    let mut marks = all_unmarked(alloc, code.instrs.len())?;
    mark_all(code.funcs.as_slice(), &mut marks);
    Ok(marks)
}

/// So many marks, none of which is set.
fn all_unmarked(alloc: Global, count: usize) -> Result<Vec<bool>, NoMemory>
    ensures { IfOk result (λ marks. marks.items ≡ replicate count false) }
{
    let mut marks = Vec::new(alloc);
    for k in 0..count {
        marks.push(false)?;
    }
    Ok(marks)
}

/// Sets the marks of these functions' entries.
fn mark_all(funcs: &[CodeFunc], marks: &mut Vec<bool>)
    ensures { Marks funcs.now marks.old.items marks.new.items }
{
    mark_each(funcs, marks.as_mut_slice())
}

/// Sets the marks of these functions' entries.
fn mark_each(funcs: &[CodeFunc], marks: &mut [bool])
    ensures { Marks funcs.now marks.old marks.new }
{
    for func in funcs {
        mark(func.entry, marks);
    }
}

/// Sets a mark, if there is one of that number.
#[tactic(auto, using(std::proofs::lemmas::List::set_past))]
fn mark(number: u32, marks: &mut [bool])
    ensures { marks.new ≡ slice_set marks.old number true }
{
    let at = number as usize;
    if at < marks.len() {
        marks[at] = true;
    }
}
