//! One instruction of a run, whose operation is recorded.
ghost use Rattle.std.specs.Prelude.{◌≡◌, ℕ, [], IfOk, OnOk, List, Option, Some, is_some, true};
ghost use Rattle.k_ending.specs.declared.ending.End.{End as EndValue};
ghost use Rattle.k_world.specs.declared.answer.Stop.TheVariants.{Ended};
ghost use Rattle.k_code.specs.declared.instruction.Arg.{Arg as ArgValue};
ghost use Rattle.k_code.specs.declared.instruction.Do.TheVariants as act;
ghost use Rattle.k_hcpa_store.specs.Leads.{IsNext, alone_events, goes_alone, goes_by};
ghost use Rattle.k_replay_code.specs.Steps.{Advanced};
ghost use Rattle.k_replay_record.specs.Recorded.{IsRecorded};

use crate::kind::{Kind, kind_of};
use crate::tape::{Tape, note, note_call, note_move};
use k_code::Instr;
use k_ending::End;
use k_hcpa_store::{Calling, Store, act_in};
use k_num::NoMemory;
use k_world::Stop;
use std::alloc::Global;

/// A call of a run never has so many regions open beside its function's.
const REGION_LIMIT: u64 = 1 << 61;

/// Does the instruction that is next, and records its operation.
pub fn advance<'a>(
    alloc: Global,
    store: &mut Store<'a>,
    tape: &mut Tape,
    instr: &'a Instr,
) -> Result<Option<End>, NoMemory>
    requires next { IsNext store.old instr.now }
    requires recorded { IsRecorded tape.old.recorder }
    ensures { IfOk result (λ end. Advanced store.old end store.new tape.old.recorder tape.new.recorder) }
{
    match kind_of(&instr.act) {
        Kind::Operation => operate(alloc, store, tape, instr),
        Kind::Alone => go_alone(store, tape, instr),
        Kind::Enter => enter(store, tape, instr),
        Kind::Exit => exit(store, tape, instr),
        Kind::Call => call(alloc, store, tape, instr),
        Kind::Return => leave(alloc, store, tape, instr),
    }
}

/// An instruction that makes an operation and goes on in its call.
fn operate<'a>(
    alloc: Global,
    store: &mut Store<'a>,
    tape: &mut Tape,
    instr: &'a Instr,
) -> Result<Option<End>, NoMemory>
    requires next { IsNext store.old instr.now }
    requires recorded { IsRecorded tape.old.recorder }
    requires kind { is_some (goes_by instr.now.act) ≡ true }
    ensures { IfOk result (λ end. Advanced store.old end store.new tape.old.recorder tape.new.recorder) }
{
    let Some(act) = act_in(&instr.act) else {
        return Err(NoMemory);
    };
    store.read_operands(&mut tape.reads, instr)?;
    let under = store.control();
    match store.make(instr) {
        Ok(done) => {
            same_source(done.control, under)?;
            note(alloc, tape, act, &done)?;
            Ok(None)
        }
        Err(stop) => stopped(stop),
    }
}

/// The run has ended, or no memory was found.
fn stopped(stop: Stop) -> Result<Option<End>, NoMemory>
    ensures { IfOk result (λ e. (end : EndValue) × (stop ≡ Ended end) × (e ≡ Some end)) }
{
    match stop {
        Stop::Ended(end) => Ok(Some(end)),
        Stop::Memory => Err(NoMemory),
    }
}

/// Two sources are the same, or no memory is found.
fn same_source(told: Option<u64>, control: Option<u64>) -> Result<(), NoMemory>
    ensures { OnOk result (told ≡ control) }
{
    if told == control {
        Ok(())
    } else {
        Err(NoMemory)
    }
}

/// An instruction without events.
fn go_alone<'a>(
    store: &mut Store<'a>,
    tape: &mut Tape,
    instr: &'a Instr,
) -> Result<Option<End>, NoMemory>
    requires next { IsNext store.old instr.now }
    requires kind { (goes_alone instr.now.act ≡ true) × (alone_events instr.now.act ≡ []) }
    ensures { IfOk result (λ end. Advanced store.old end store.new tape.old.recorder tape.new.recorder) }
{
    match store.alone(instr) {
        Ok(_) => Ok(None),
        Err(Stop::Ended(end)) => Ok(Some(end)),
        Err(Stop::Memory) => Err(NoMemory),
    }
}

/// A region is entered.
fn enter<'a>(
    store: &mut Store<'a>,
    tape: &mut Tape,
    instr: &'a Instr,
) -> Result<Option<End>, NoMemory>
    requires next { IsNext store.old instr.now }
    requires kind { (region : ℕ) × (instr.now.act ≡ act.Enter region) }
    ensures { IfOk result (λ end. Advanced store.old end store.new tape.old.recorder tape.new.recorder) }
{
    if store.regions() > REGION_LIMIT {
        return Err(NoMemory);
    }
    store.enter(instr);
    Ok(None)
}

/// A region is left.
fn exit<'a>(
    store: &mut Store<'a>,
    tape: &mut Tape,
    instr: &'a Instr,
) -> Result<Option<End>, NoMemory>
    requires next { IsNext store.old instr.now }
    requires kind { instr.now.act ≡ act.Exit }
    ensures { IfOk result (λ end. Advanced store.old end store.new tape.old.recorder tape.new.recorder) }
{
    store.exit(instr);
    Ok(None)
}

/// A function is called.
fn call<'a>(
    alloc: Global,
    store: &mut Store<'a>,
    tape: &mut Tape,
    instr: &'a Instr,
) -> Result<Option<End>, NoMemory>
    requires next { IsNext store.old instr.now }
    requires recorded { IsRecorded tape.old.recorder }
    requires kind { (func : ℕ) × ((args : List ArgValue) × ((to : Option ℕ) × (instr.now.act ≡ act.Call func args to))) }
    ensures { IfOk result (λ end. Advanced store.old end store.new tape.old.recorder tape.new.recorder) }
{
    store.read_operands(&mut tape.reads, instr)?;
    let under = store.control();
    match store.call(instr) {
        Ok(Calling::Entered) => {
            note_call(alloc, tape, under)?;
            Ok(None)
        }
        Ok(Calling::Overflowed(end)) => {
            note_call(alloc, tape, under)?;
            Ok(Some(end))
        }
        Err(stop) => stopped(stop),
    }
}

/// A call returns.
fn leave<'a>(
    alloc: Global,
    store: &mut Store<'a>,
    tape: &mut Tape,
    instr: &'a Instr,
) -> Result<Option<End>, NoMemory>
    requires next { IsNext store.old instr.now }
    requires recorded { IsRecorded tape.old.recorder }
    requires kind { (value : Option ArgValue) × (instr.now.act ≡ act.Return value) }
    ensures { IfOk result (λ end. Advanced store.old end store.new tape.old.recorder tape.new.recorder) }
{
    match store.may_return(instr) {
        Ok(()) => {
            store.read_operands(&mut tape.reads, instr)?;
            let under = store.control();
            note_move(alloc, tape, under)?;
            Ok(store.leave(instr))
        }
        Err(end) => Ok(Some(end)),
    }
}
