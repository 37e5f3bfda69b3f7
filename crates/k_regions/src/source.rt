//! The regions of a source in the order of their numbers.
ghost use Rattle.std.specs.Prelude.{◌≡◌, ◌∷◌, ◌++◌, [], IfOk, OnOk};
ghost use Rattle.k_regions.specs.Regions.{function_itself, loops_of, region, regions_of, regions_of_loops};

use crate::loops::{LoopAt, find_stmts};
use k_num::{NoMemory, Place, Seq, Text};
use k_optab::{Region, RegionKind};
use k_types_meaning::{TFunc, TUnit};
use std::alloc::Global;

/// The regions of a typed source: each function, and in it each loop directly followed by its body.
#[tactic(auto, unfolding(crate::specs::Regions::regions_of))]
pub fn regions(alloc: Global, unit: &TUnit) -> Result<Seq<Region>, NoMemory>
    ensures { IfOk result (λ regions. regions ≡ regions_of unit.now) }
{
    let mut regions = Seq::new(alloc);
    for function in unit.functions.as_slice() {
        push_function(alloc, function, &mut regions)?;
    }
    Ok(regions)
}

/// The regions of a function.
fn push_function(alloc: Global, function: &TFunc, regions: &mut Seq<Region>) -> Result<(), NoMemory>
    ensures { OnOk result (regions.new ≡ regions.old ++ function_itself function.now ∷ regions_of_loops function.now.name (loops_of function.now)) }
{
    let name = function.name.as_str();
    push_region(alloc, RegionKind::Func, name, function.place, regions)?;
    let mut loops = Seq::new(alloc);
    find_stmts(&function.body, &mut loops)?;
    push_loops(alloc, name, loops.as_slice(), regions)
}

/// The regions of these loops of a function of this name.
fn push_loops(
    alloc: Global,
    name: &str,
    loops: &[LoopAt],
    regions: &mut Seq<Region>,
) -> Result<(), NoMemory>
    ensures { OnOk result (regions.new ≡ regions.old ++ regions_of_loops name.now loops.now) }
{
    for at in loops {
        push_region(alloc, RegionKind::Loop, name, at.place, regions)?;
        push_region(alloc, RegionKind::Body, name, at.body, regions)?;
    }
    Ok(())
}

/// A region of a function of this name.
fn push_region(
    alloc: Global,
    kind: RegionKind,
    name: &str,
    place: Place,
    regions: &mut Seq<Region>,
) -> Result<(), NoMemory>
    ensures { OnOk result (regions.new ≡ regions.old ++ region kind name.now place ∷ []) }
{
    let func = Text::copy_of(alloc, name)?;
    regions.push(Region { kind, func, place })
}
