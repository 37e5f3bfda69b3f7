//! Flat code as a whole, from its parts.
ghost use Rattle.std.specs.Prelude.{◌≡◌, IfOk};
ghost use Rattle.k_lower_code.specs.Functions.{registers_of};
ghost use Rattle.k_lower_parts.specs.Parts.{code_with, func_with};

use crate::objects::objects;
use crate::registers::all_needed;
use k_code::{Code, CodeFunc, Instr};
use k_num::{NoMemory, Seq};
use k_regions::regions;
use k_typed_parts::function_region;
use k_types_meaning::{TFunc, TUnit};
use std::alloc::Global;

/// How many registers these instructions need.
fn registers_for(instrs: &[Instr]) -> Result<u32, NoMemory>
    ensures { IfOk result (λ n. n ≡ registers_of instrs.now) }
{
    match u32::try_from(all_needed(instrs)) {
        Ok(registers) => Ok(registers),
        Err(_) => Err(NoMemory),
    }
}

/// The function of this number as code has it: its first instruction has the number `entry`, and these are its instructions.
pub fn code_func(number: u32, f: &TFunc, entry: u32, instrs: &[Instr]) -> Result<CodeFunc, NoMemory>
    ensures { IfOk result (λ func. func ≡ func_with number f.now entry instrs.now) }
{
    let registers = registers_for(instrs)?;
    let region = function_region(number, f)?;
    Ok(CodeFunc {
        entry,
        params: f.params,
        registers: f.params.max(registers),
        size: f.nodes,
        region,
    })
}

/// The flat code of a source, of which these are the functions and their instructions.
pub fn code_of(
    alloc: Global,
    unit: &TUnit,
    funcs: Seq<CodeFunc>,
    instrs: Seq<Instr>,
) -> Result<Code, NoMemory>
    ensures { IfOk result (λ code. code ≡ code_with unit.now funcs instrs) }
{
    let regions = regions(alloc, unit)?;
    let objects = objects(alloc, unit)?;
    Ok(Code {
        funcs,
        instrs,
        regions,
        objects,
        main: unit.main,
    })
}
