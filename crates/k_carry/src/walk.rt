//! A run of flat code, and what is noted of it.
ghost use Rattle.std.specs.Prelude.{◌≡◌, ℕ, ◌+◌, ◌<◌, ◌≤◌, ◌^◌, [], ◌++◌, IfOk, OnOk, Some};
ghost use Rattle.k_carry.specs.declared.advance.Made.{Made as MadeValue};
ghost use Rattle.k_carry.specs.Noting.{IsNoted, IsNotedAll, all_left, gathered_entered, made_after};
ghost use Rattle.k_carry.specs.Running.{IsKept, IsSetting, Stepped};
ghost use Rattle.k_carry.specs.Sources.{ArePlaced, ArePlaces, IsPlaceOf, Setting as SettingValue, cited_numbers, one_number, origin_numbers, setting_of};

use crate::advance::{Happened, Made, advance};
use crate::cited::{Cited, Spot};
use crate::places::{Bounds, Places};
use crate::program::{Program, place_by_running};
use crate::sources::{cite, cite_operands};
use k_carry_pairs::{Gathering, Origin};
use k_code::{Do, Instr};
use k_ending::End;
use k_hcpa_store::Store;
use k_num::{NoMemory, Place};

/// What is noted of a run.
#[derive(Drop)]
pub struct Noted<'a> {
    pub gathering: Gathering<'a>,
    pub places: Places,
    /// The operations whose values the next one uses.
    pub cited: Vec<Cited>,
    /// The same with their places.
    pub origins: Vec<Origin>,
}

/// The instruction that is next: how many operations were made before it, and the numbers of its call.
#[derive(Clone, Copy)]
struct Next<'a> {
    instr: &'a Instr,
    number: u64,
    bounds: Bounds,
}

/// The place of an operation: the one that is kept where its value stands, or else found by running anew.
fn place_of(program: &Program<'_>, places: &Places, cited: Cited) -> Result<Place, NoMemory>
    requires setting { IsSetting (setting_of program.now) }
    requires places { ArePlaces (setting_of program.now) places.now }
    ensures { IfOk result (λ place. IsPlaceOf (setting_of program.now) cited.number place) }
{
    match places.get(cited.spot) {
        Some(origin) => kept_place(program, origin, cited.number),
        None => place_by_running(program, cited.number),
    }
}

/// The place of an operation where this one is kept.
fn kept_place(program: &Program<'_>, origin: Origin, number: u64) -> Result<Place, NoMemory>
    requires setting { IsSetting (setting_of program.now) }
    requires kept { IsPlaceOf (setting_of program.now) origin.number origin.place }
    ensures { IfOk result (λ place. IsPlaceOf (setting_of program.now) number place) }
{
    if origin.number == number {
        return Ok(origin.place);
    }
    place_by_running(program, number)
}

/// Finds the places of operations.
fn place_all(
    program: &Program<'_>,
    places: &Places,
    cited: &[Cited],
    origins: &mut Vec<Origin>,
) -> Result<(), NoMemory>
    requires setting { IsSetting (setting_of program.now) }
    requires places { ArePlaces (setting_of program.now) places.now }
    ensures numbers { OnOk result (origin_numbers origins.new.items ≡ cited_numbers cited.now) }
    ensures placed { OnOk result (ArePlaced (setting_of program.now) origins.new.items) }
{
    origins.clear();
    let mut rest = cited;
    while let Some((one, later)) = rest.split_first() {
        let place = place_of(program, places, *one)?;
        origins.push(Origin {
            number: one.number,
            place,
        })?;
        rest = later;
    }
    Ok(())
}

/// Where the value stands that an operation of this instruction uses beside its operands.
fn hidden_spot(act: &Do, element: Option<u32>) -> Spot {
    match act {
        Do::Input { .. } => Spot::Input,
        Do::Output { .. } => Spot::Output,
        _ => element_spot(element),
    }
}

/// Where the value of an element stands.
fn element_spot(element: Option<u32>) -> Spot {
    match element {
        Some(element) => Spot::Element(element as usize),
        None => Spot::Control,
    }
}

/// Cites what an operation uses beside its operands.
fn cite_rest(cited: &mut Vec<Cited>, act: &Do, made: Made) -> Result<(), NoMemory>
    ensures { OnOk result (cited_numbers cited.new.items ≡ cited_numbers cited.old.items ++ (one_number made.hidden ++ one_number made.control)) }
{
    cite(cited, made.hidden, hidden_spot(act, made.element))?;
    cite(cited, made.control, Spot::Control)
}

/// An operation was made: the loops that carry what it depends on have a pair for it, and it is kept where its value stands.
fn note_operation(
    noted: &mut Noted<'_>,
    program: &Program<'_>,
    next: Next<'_>,
    made: Made,
) -> Result<(), NoMemory>
    requires setting { IsSetting (setting_of program.now) }
    requires places { ArePlaces (setting_of program.now) noted.old.places }
    ensures noted { OnOk result (IsNoted (setting_of program.now) noted.old.cited.items next.entry.instr.now.place (Some made) noted.old.gathering noted.new.gathering) }
    ensures places { OnOk result (IsPlaceOf (setting_of program.now) next.entry.number next.entry.instr.now.place → ArePlaces (setting_of program.now) noted.new.places) }
{
    cite_rest(&mut noted.cited, &next.instr.act, made)?;
    place_all(program, &noted.places, &noted.cited, &mut noted.origins)?;
    noted.gathering.depend(&noted.origins, next.instr.place)?;
    let origin = Origin {
        number: next.number,
        place: next.instr.place,
    };
    noted
        .places
        .follow(&next.instr.act, made, next.bounds, origin)?;
    Ok(())
}

/// An instruction made an operation, or none.
fn note_made(
    noted: &mut Noted<'_>,
    program: &Program<'_>,
    next: Next<'_>,
    operation: Option<Made>,
) -> Result<u64, NoMemory>
    requires setting { IsSetting (setting_of program.now) }
    requires places { ArePlaces (setting_of program.now) noted.old.places }
    requires few { next.number + 1 < 2 ^ 64 }
    ensures made { IfOk result (λ made. made ≡ made_after next.entry.number operation) }
    ensures noted { OnOk result (IsNoted (setting_of program.now) noted.old.cited.items next.entry.instr.now.place operation noted.old.gathering noted.new.gathering) }
    ensures places { OnOk result (((m : MadeValue) → operation ≡ Some m → IsPlaceOf (setting_of program.now) next.entry.number next.entry.instr.now.place) → ArePlaces (setting_of program.now) noted.new.places) }
{
    match operation {
        Some(made) => {
            note_operation(noted, program, next, made)?;
            Ok(next.number + 1)
        }
        None => {
            noted.places.move_control(&next.instr.act)?;
            Ok(next.number)
        }
    }
}

/// An instance was entered, or none.
fn note_entered(
    gathering: &mut Gathering<'_>,
    entered: Option<u32>,
    made: u64,
) -> Result<(), NoMemory>
    ensures { OnOk result (gathering.new ≡ gathered_entered made entered gathering.old) }
{
    match entered {
        Some(region) => gathering.enter(region, made),
        None => Ok(()),
    }
}

/// So many instances were left.
fn note_left(gathering: &mut Gathering<'_>, made: u64, left: u64)
    ensures { gathering.new ≡ all_left made left gathering.old }
{
    let mut rest = left;
    while rest > 0 {
        gathering.leave(made);
        rest -= 1;
    }
}

/// A call that returned has no saved control sources any more.
fn note_return(places: &mut Places, act: &Do, bounds: Bounds)
    ensures { (s : SettingValue) → ArePlaces s places.old → ArePlaces s places.new }
{
    match act {
        Do::Return { .. } => places.leave(bounds),
        _ => {}
    }
}

/// What happened by an instruction is noted.
fn note(
    noted: &mut Noted<'_>,
    program: &Program<'_>,
    next: Next<'_>,
    happened: Happened,
) -> Result<(), NoMemory>
    requires setting { IsSetting (setting_of program.now) }
    requires places { ArePlaces (setting_of program.now) noted.old.places }
    requires few { next.number + 1 < 2 ^ 64 }
    ensures noted { OnOk result (IsNotedAll (setting_of program.now) noted.old.cited.items next.entry.number next.entry.instr.now.place happened noted.old.gathering noted.new.gathering) }
    ensures places { OnOk result (((m : MadeValue) → happened.operation ≡ Some m → IsPlaceOf (setting_of program.now) next.entry.number next.entry.instr.now.place) → ArePlaces (setting_of program.now) noted.new.places) }
{
    let made = note_made(noted, program, next, happened.operation)?;
    note_entered(&mut noted.gathering, happened.entered, made)?;
    note_left(&mut noted.gathering, made, happened.left);
    note_return(&mut noted.places, &next.instr.act, next.bounds);
    Ok(())
}

/// Numbers of the newest call.
fn bounds_of(store: &Store<'_>) -> Bounds {
    Bounds {
        first: store.first_register(),
        next: store.next_register(),
        back: store.back_register(),
        saved: store.saved_before(),
    }
}

/// Does the instruction that is next, and notes what happened.
pub fn step<'a>(
    store: &mut Store<'a>,
    noted: &mut Noted<'a>,
    program: &Program<'a>,
) -> Result<Option<End>, NoMemory>
    requires setting { IsSetting (setting_of program.now) }
    requires kept { IsKept (setting_of program.now) store.old noted.old.gathering noted.old.places }
    ensures { IfOk result (λ end. Stepped (setting_of program.now) store.old end store.new noted.new.gathering noted.new.places) }
{
    let next = Next {
        instr: store.instruction(),
        number: store.made(),
        bounds: bounds_of(store),
    };
    noted.cited.clear();
    cite_operands(&mut noted.cited, store, next.bounds.first, &next.instr.act)?;
    let happened = advance(store, program.code, next.instr)?;
    note(noted, program, next, happened)?;
    store.drop_pending();
    Ok(happened.end)
}
