//! A run of flat code, and what is noted of it.
ghost use Rattle.std.specs.Prelude.{◌≡◌, ◌+◌, ◌<◌, ◌^◌, IfOk, OnOk};
ghost use Rattle.k_carry.specs.Noting.{made_after};
ghost use Rattle.k_carry.specs.Running.{IsSetting};
ghost use Rattle.k_carry_storage.specs.Noting.{IsAccessed, IsLoaded, IsNotedAll, IsNotedIf, IsNotedMade, IsStored, all_left, entered_if, shared_by};
ghost use Rattle.k_carry_storage.specs.Running.{IsKept, Stepped, setting_of};

use crate::accesses::next_access;
use crate::table::Table;
use k_carry::advance::{Happened, Made, advance};
use k_carry_pairs::Origin;
use k_carry_storage_pairs::{Access, SharedGathering, list_firsts};
use k_code::Code;
use k_ending::End;
use k_hcpa_store::Store;
use k_mem::Pointer;
use k_num::{NoMemory, Place};
use k_world::Read;
use std::alloc::Global;

/// A program with its input, and the most operations that it may make.
#[derive(Clone, Copy)]
pub struct Program<'a> {
    pub alloc: Global,
    pub code: &'a Code,
    pub input: &'a [u8],
    pub budget: u64,
    /// The depth below which instances are tracked.
    pub depth: u32,
}

/// What is noted of a run.
#[derive(Drop)]
pub struct Noted<'a> {
    pub gathering: SharedGathering<'a>,
    /// For each element the operations that may be the first of an instance to load it.
    pub loads: Table,
    /// For each element the operations that may be the first of an instance to store to it.
    pub stores: Table,
    /// What the operands of the next instruction read.
    pub reads: Vec<Read>,
    pub first_loads: Vec<Origin>,
    pub first_stores: Vec<Origin>,
}

/// An operation at this place stores to an element: the loops whose earlier turns accessed it have a pair for it.
fn share(noted: &mut Noted<'_>, element: Pointer, to: Place) -> Result<(), NoMemory>
    ensures shared { OnOk result (noted.new.gathering ≡ shared_by noted.old.loads noted.old.stores element to noted.old.gathering) }
    ensures loads { noted.new.loads ≡ noted.old.loads }
    ensures stores { noted.new.stores ≡ noted.old.stores }
{
    let starts = noted.gathering.tracked();
    list_firsts(starts, noted.loads.get(element), &mut noted.first_loads)?;
    list_firsts(starts, noted.stores.get(element), &mut noted.first_stores)?;
    noted
        .gathering
        .share(&noted.first_loads, &noted.first_stores, to)
}

/// An operation loads an element.
fn note_load(noted: &mut Noted<'_>, element: Pointer, origin: Origin) -> Result<(), NoMemory>
    ensures { OnOk result (IsLoaded element origin noted.old.gathering noted.new.gathering noted.old.loads noted.new.loads noted.old.stores noted.new.stores) }
{
    let starts = noted.gathering.tracked();
    let firsts = &mut noted.first_loads;
    noted.loads.note(element, starts, origin, firsts)?;
    Ok(())
}

/// An operation stores to an element.
fn note_store(noted: &mut Noted<'_>, element: Pointer, origin: Origin) -> Result<(), NoMemory>
    ensures { OnOk result (IsStored element origin noted.old.gathering noted.new.gathering noted.old.loads noted.new.loads noted.old.stores noted.new.stores) }
{
    share(noted, element, origin.place)?;
    let starts = noted.gathering.tracked();
    let firsts = &mut noted.first_stores;
    noted.stores.note(element, starts, origin, firsts)?;
    Ok(())
}

/// An operation accesses an element.
fn note_access(
    noted: &mut Noted<'_>,
    writes: bool,
    element: Pointer,
    origin: Origin,
) -> Result<(), NoMemory>
    ensures { OnOk result (IsAccessed writes element origin noted.old.gathering noted.new.gathering noted.old.loads noted.new.loads noted.old.stores noted.new.stores) }
{
    if writes {
        return note_store(noted, element, origin);
    }
    note_load(noted, element, origin)
}

/// An operation makes an access, or none.
fn note_if(noted: &mut Noted<'_>, access: Option<Access>, origin: Origin) -> Result<(), NoMemory>
    ensures { OnOk result (IsNotedIf access origin noted.old.gathering noted.new.gathering noted.old.loads noted.new.loads noted.old.stores noted.new.stores) }
{
    match access {
        Some(access) => note_access(noted, access.writes, access.element, origin),
        None => Ok(()),
    }
}

/// An instruction made an operation, or none.
fn note_made(
    noted: &mut Noted<'_>,
    access: Option<Access>,
    origin: Origin,
    operation: Option<Made>,
) -> Result<u64, NoMemory>
    requires few { origin.number + 1 < 2 ^ 64 }
    ensures made { IfOk result (λ made. made ≡ made_after origin.number operation) }
    ensures noted { OnOk result (IsNotedMade operation access origin noted.old.gathering noted.new.gathering noted.old.loads noted.new.loads noted.old.stores noted.new.stores) }
{
    match operation {
        Some(_) => {
            note_if(noted, access, origin)?;
            Ok(origin.number + 1)
        }
        None => Ok(origin.number),
    }
}

/// An instance was entered, or none.
fn note_entered(
    gathering: &mut SharedGathering<'_>,
    entered: Option<u32>,
    made: u64,
) -> Result<(), NoMemory>
    ensures { OnOk result (gathering.new ≡ entered_if made entered gathering.old) }
{
    match entered {
        Some(region) => gathering.enter(region, made),
        None => Ok(()),
    }
}

/// So many instances were left.
fn note_left(gathering: &mut SharedGathering<'_>, made: u64, left: u64)
    ensures { gathering.new ≡ all_left made left gathering.old }
{
    let mut rest = left;
    while rest > 0 {
        gathering.leave(made);
        rest -= 1;
    }
}

/// What happened by an instruction is noted.
fn note(
    noted: &mut Noted<'_>,
    access: Option<Access>,
    origin: Origin,
    happened: Happened,
) -> Result<(), NoMemory>
    requires few { origin.number + 1 < 2 ^ 64 }
    ensures { OnOk result (IsNotedAll access origin happened noted.old.gathering noted.new.gathering noted.old.loads noted.new.loads noted.old.stores noted.new.stores) }
{
    let made = note_made(noted, access, origin, happened.operation)?;
    note_entered(&mut noted.gathering, happened.entered, made)?;
    note_left(&mut noted.gathering, made, happened.left);
    Ok(())
}

/// Does the instruction that is next, and notes what happened.
pub fn step<'a>(
    store: &mut Store<'a>,
    noted: &mut Noted<'a>,
    program: &Program<'a>,
) -> Result<Option<End>, NoMemory>
    requires setting { IsSetting (setting_of program.now) }
    requires kept { IsKept (setting_of program.now) store.old noted.old.gathering noted.old.loads noted.old.stores }
    ensures { IfOk result (λ end. Stepped (setting_of program.now) store.old end store.new noted.new.gathering noted.new.loads noted.new.stores) }
{
    let instr = store.instruction();
    let origin = Origin {
        number: store.made(),
        place: instr.place,
    };
    let access = next_access(store, instr, &mut noted.reads)?;
    let happened = advance(store, program.code, instr)?;
    note(noted, access, origin, happened)?;
    store.drop_pending();
    Ok(happened.end)
}
