//! A program that is run, and its operations by their numbers.
ghost use Rattle.std.specs.Prelude.{◌≡◌, ◌≤◌, IfOk};
ghost use Rattle.k_hcpa_store.specs.Kept.{configuration_of};
ghost use Rattle.k_carry.specs.Running.{IsSetting, Searches, Stands, found_place, nowhere as nowhere_meant};
ghost use Rattle.k_carry.specs.Sources.{IsPlaceOf, setting_of};

use crate::advance::{Happened, advance};
use k_code::Code;
use k_hcpa_store::Store;
use k_num::{NoMemory, Place};
use k_world::Stop;
use std::alloc::Global;

/// A program with its input, and the most operations that it may make.
#[derive(Clone, Copy)]
pub struct Program<'a> {
    pub alloc: Global,
    pub code: &'a Code,
    pub input: &'a [u8],
    pub budget: u64,
    /// The depth below which instances are tracked.
    pub depth: u32,
}

/// The place of no operation.
fn nowhere() -> Place
    ensures { result ≡ nowhere_meant }
{
    Place { line: 0, column: 0 }
}

/// The place of an operation that is looked for, where an instruction at this place did this.
fn found(here: bool, happened: &Happened, place: Place) -> Option<Place>
    ensures { result ≡ found_place here happened.now.operation happened.now.end place }
{
    match (here, happened.operation, happened.end) {
        (true, Some(_), _) => Some(place),
        (_, _, Some(_)) => Some(nowhere()),
        (_, _, None) => None,
    }
}

/// Does the instruction that is next, in search of the operation of a number.
fn search<'a>(
    program: &Program<'a>,
    store: &mut Store<'a>,
    number: u64,
) -> Result<Option<Place>, NoMemory>
    requires setting { IsSetting (setting_of program.now) }
    requires stands { Stands (setting_of program.now) store.old }
    requires fewer { (configuration_of store.old).world.made ≤ number }
    ensures { IfOk result (λ place. Searches (setting_of program.now) store.old number place store.new) }
{
    let instr = store.instruction();
    let here = store.made() == number;
    let happened = advance(store, program.code, instr)?;
    store.drop_pending();
    Ok(found(here, &happened, instr.place))
}

/// The place of the operation of a number, in a run that goes on behind fewer.
fn place_in<'a>(
    program: &Program<'a>,
    store: &mut Store<'a>,
    number: u64,
) -> Result<Place, NoMemory>
    requires setting { IsSetting (setting_of program.now) }
    requires stands { Stands (setting_of program.now) store.old }
    requires fewer { (configuration_of store.old).world.made ≤ number }
    ensures { IfOk result (λ place. IsPlaceOf (setting_of program.now) number place) }
{
    loop {
        if let Some(place) = search(program, store, number)? {
            return Ok(place);
        }
    }
}

/// The place of the operation of a number, which is found by running the program anew up to that operation.
pub fn place_by_running(program: &Program<'_>, number: u64) -> Result<Place, NoMemory>
    requires { IsSetting (setting_of program.now) }
    ensures { IfOk result (λ place. IsPlaceOf (setting_of program.now) number place) }
{
    match Store::start(program.alloc, program.code, program.input, program.budget) {
        Ok(store) => {
            let mut store = store;
            place_in(program, &mut store, number)
        }
        Err(Stop::Ended(_)) => Ok(nowhere()),
        Err(Stop::Memory) => Err(NoMemory),
    }
}
