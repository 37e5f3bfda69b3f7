//! Numbering of a source (C17 6.9).
ghost use Rattle.std.specs.Prelude.{◌≡◌, OnOk};
ghost use Rattle.k_types_meaning.specs.Bare.{bare_unit};
ghost use Rattle.k_types_meaning.specs.Numbered.{IsNumbered};
ghost use Rattle.k_types_numbers.specs.Renumbering.{NumbersFunction, NumbersFunctions};

use crate::counts::Counts;
use crate::statement::number_stmts;
use k_num::NoMemory;
use k_types_meaning::{TFunc, TUnit};
use std::alloc::Global;

/// Numbers a source: its expressions and statements, its strings, which are listed, and its loops. Where it
/// answers want of memory, the source is not to be used.
pub fn number(alloc: Global, unit: &mut TUnit) -> Result<(), NoMemory>
    ensures same { OnOk result (bare_unit unit.new ≡ bare_unit unit.old) }
    ensures numbered { OnOk result (IsNumbered unit.new) }
{
    let mut counts = Counts::new(alloc);
    number_functions(unit.functions.as_mut_slice(), alloc, &mut counts)?;
    let Counts {
        nodes,
        strings: _,
        loops,
        texts,
    } = counts;
    unit.strings = texts;
    unit.nodes = nodes;
    unit.loops = loops;
    Ok(())
}

/// Numbers functions in their order.
fn number_functions(
    functions: &mut [TFunc],
    alloc: Global,
    counts: &mut Counts,
) -> Result<(), NoMemory>
    ensures { OnOk result (NumbersFunctions functions.old functions.new counts.old counts.new) }
{
    for function in functions.iter_mut() {
        number_function(function, alloc, counts)?;
    }
    Ok(())
}

/// Numbers a function: it knows how many loops come before it.
fn number_function(function: &mut TFunc, alloc: Global, counts: &mut Counts) -> Result<(), NoMemory>
    ensures { OnOk result (NumbersFunction function.old function.new counts.old counts.new) }
{
    function.loops = counts.loops;
    number_stmts(function.body.as_mut_slice(), alloc, counts)
}
