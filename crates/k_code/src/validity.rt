//! Whether code is valid.
ghost use Rattle.std.specs.Prelude.{◌≡◌, ◌<◌, ◌↔◌, length, slice_get, true, IsTrue, IfOk, Some, ◌-◌, ◌*◌, ◌≤◌};
ghost use Rattle.k_code.specs.Decides.{AreExtents, BodyFits, EntriesFit, EntryFits, HasNumbers, HasRoom, HaveNumbers, HaveRoom, IsExtent, IsExtentOf, is_entry};
ghost use Rattle.k_code.specs.Valid.{IsValid};

use crate::{Code, CodeFunc, Instr};
use balances::is_balanced;
use extents::{Extent, extents, part};
use k_num::NoMemory;
use ranges::all_in_range;
use std::alloc::Global;

mod balances;
mod extents;
mod ranges;
mod registers;

/// The greatest size of a function, and how many instructions it may have for each unit of its size.
const GREATEST_SIZE: u32 = 1_048_576;

const INSTRUCTIONS: u64 = 512;

/// Whether code is valid. Each instruction, each operand and each function is looked at a few times, however functions overlap, so the time
/// grows with the length of the code.
pub fn valid(alloc: Global, code: &Code) -> Result<bool, NoMemory>
    ensures { IfOk result (λ b. IsTrue b ↔ IsValid code.now) }
{
    let funcs = code.funcs.as_slice();
    if funcs.len() <= code.main as usize {
        return Ok(false);
    }
    if !all_numbers_fit(code, funcs) {
        return Ok(false);
    }
    let extents = extents(alloc, code)?;
    if !all_extents_fit(code, funcs, extents.as_slice()) {
        return Ok(false);
    }
    all_entries_fit(alloc, code, extents.as_slice())
}

/// Whether the numbers of all functions are in their ranges.
fn all_numbers_fit(code: &Code, funcs: &[CodeFunc]) -> bool
    ensures { IsTrue result ↔ HaveNumbers code.now funcs.now }
{
    for func in funcs {
        if !numbers_fit(code, func) {
            return false;
        }
    }
    true
}

/// Whether those of a function are.
fn numbers_fit(code: &Code, func: &CodeFunc) -> bool
    ensures { IsTrue result ↔ HasNumbers code.now func.now }
{
    (func.entry as usize) < code.instrs.len()
        && (func.region as usize) < code.regions.len()
        && 1 <= func.size
        && func.size <= GREATEST_SIZE
        && u64::from(func.registers) <= 2 * u64::from(func.size)
        && func.params <= func.registers
}

/// Whether all functions have few enough instructions, and registers enough for them.
fn all_extents_fit(code: &Code, funcs: &[CodeFunc], extents: &[Option<Extent>]) -> bool
    requires extents { AreExtents code.now extents.now }
    requires funcs { funcs.now ≡ code.now.funcs }
    requires numbers { HaveNumbers code.now funcs.now }
    ensures { IsTrue result ↔ HaveRoom code.now funcs.now }
{
    for func in funcs {
        if !extent_fits(code, extents, func) {
            return false;
        }
    }
    true
}

/// Whether a function has.
fn extent_fits(code: &Code, extents: &[Option<Extent>], func: &CodeFunc) -> bool
    requires extents { AreExtents code.now extents.now }
    requires entry { func.now.entry < length code.now.instrs }
    requires begins { is_entry code.now.funcs func.now.entry ≡ true }
    ensures { IsTrue result ↔ HasRoom code.now func.now }
{
    match extent_found(extents, func.entry as usize) {
        Some(extent) => extent_passes(extent, func),
        None => false,
    }
}

/// Whether a function with this extent has.
fn extent_passes(extent: Extent, func: &CodeFunc) -> bool
    ensures { IsTrue result ↔ ((extent.end - func.now.entry ≤ 512 * func.now.size) × (extent.registers ≤ func.now.registers)) }
{
    extent.end.saturating_sub(func.entry as usize) as u64 <= INSTRUCTIONS * u64::from(func.size)
        && extent.registers <= u64::from(func.registers)
}

/// Whether each function is in its ranges and balanced.
fn all_entries_fit(alloc: Global, code: &Code, extents: &[Option<Extent>]) -> Result<bool, NoMemory>
    requires { AreExtents code.now extents.now }
    ensures { IfOk result (λ b. IsTrue b ↔ EntriesFit code.now (length code.now.instrs)) }
{
    for entry in 0..code.instrs.len() {
        if !entry_fits(alloc, code, entry, extents)? {
            return Ok(false);
        }
    }
    Ok(true)
}

/// Whether the function is that begins with the instruction of this number, if there is one.
fn entry_fits(
    alloc: Global,
    code: &Code,
    entry: usize,
    extents: &[Option<Extent>],
) -> Result<bool, NoMemory>
    requires extents { AreExtents code.now extents.now }
    requires entry { entry < length code.now.instrs }
    ensures { IfOk result (λ b. IsTrue b ↔ EntryFits code.now entry) }
{
    match extent_found(extents, entry) {
        Some(extent) => body_fits(alloc, code, entry, extent),
        None => Ok(true),
    }
}

/// The extent of the function with this entry, if there is one.
fn extent_found(extents: &[Option<Extent>], entry: usize) -> Option<Extent>
    requires { entry < length extents.now }
    ensures { slice_get extents.now entry ≡ Some result }
{
    extents[entry]
}

/// Whether a function with this entry and this extent is.
fn body_fits(alloc: Global, code: &Code, entry: usize, extent: Extent) -> Result<bool, NoMemory>
    requires entry { entry < length code.now.instrs }
    requires extent { IsExtent code.now entry extent }
    ensures { IfOk result (λ b. IsTrue b ↔ BodyFits code.now entry) }
{
    let instrs = part(code.instrs.as_slice(), entry, extent.end);
    if !all_in_range(code, entry, instrs) {
        return Ok(false);
    }
    is_balanced(alloc, entry, instrs)
}
