//! One instruction of a run, whose events are listed.
ghost use Rattle.std.specs.Prelude.{◌≡◌, ℕ, ◌<◌, [], IfOk, List, Option, Some, length, slice_get, true};
ghost use Rattle.k_ending.specs.declared.ending.End.{End as EndValue};
ghost use Rattle.k_world.specs.declared.answer.Stop.TheVariants.{Ended};
ghost use Rattle.k_code.specs.declared.instruction.Arg.{Arg as ArgValue};
ghost use Rattle.k_code.specs.declared.instruction.Do.TheVariants as act;
ghost use Rattle.k_hcpa_store.specs.Kept.{configuration_of};
ghost use Rattle.k_hcpa_store.specs.Leads.{IsNext, alone_events, goes_alone, goes_by, may_leave};
ghost use Rattle.k_plain.specs.Kinds.{class_told, is_given};
ghost use Rattle.k_plain.specs.Steps.{Advanced};

use crate::kind::{Kind, kind_of};
use crate::log::{Log, note_enter, note_exits, note_moved, note_operation, note_under};
use k_code::{CodeFunc, Instr};
use k_ending::End;
use k_hcpa_store::{Calling, Store};
use k_num::NoMemory;
use k_optab::Class;
use k_world::Stop;
use std::alloc::Global;

/// A call of a run never has so many regions open beside its function's.
const REGION_LIMIT: u64 = 1 << 61;

/// Does the instruction that is next, and lists its events.
pub fn advance<'a>(
    alloc: Global,
    store: &mut Store<'a>,
    log: &mut Log,
    instr: &'a Instr,
) -> Result<Option<End>, NoMemory>
    requires next { IsNext store.old instr.now }
    ensures { IfOk result (λ end. Advanced store.old end store.new log.old.events log.new.events) }
{
    match kind_of(&instr.act) {
        Kind::Operation(class) => operate(alloc, store, log, instr, class),
        Kind::Alone => go_alone(store, log, instr),
        Kind::Enter(region) => enter(store, log, instr, region),
        Kind::Exit => exit(store, log, instr),
        Kind::Call(func) => call(alloc, store, log, instr, func),
        Kind::Return(moves) => leave(alloc, store, log, instr, moves),
    }
}

/// The run has ended, or no memory was found.
fn stopped(stop: Stop) -> Result<Option<End>, NoMemory>
    ensures { IfOk result (λ e. (end : EndValue) × (stop ≡ Ended end) × (e ≡ Some end)) }
{
    match stop {
        Stop::Ended(end) => Ok(Some(end)),
        Stop::Memory => Err(NoMemory),
    }
}

/// An instruction that makes an operation of this class and goes on in its call.
fn operate<'a>(
    alloc: Global,
    store: &mut Store<'a>,
    log: &mut Log,
    instr: &'a Instr,
    class: Class,
) -> Result<Option<End>, NoMemory>
    requires next { IsNext store.old instr.now }
    requires kind { class_told (goes_by instr.now.act) ≡ Some class }
    ensures { IfOk result (λ end. Advanced store.old end store.new log.old.events log.new.events) }
{
    store.read_operands(&mut log.reads, instr)?;
    match store.operate(instr) {
        Ok(done) => {
            note_operation(alloc, log, class, instr, &done)?;
            Ok(None)
        }
        Err(stop) => stopped(stop),
    }
}

/// An instruction without events.
fn go_alone<'a>(
    store: &mut Store<'a>,
    log: &mut Log,
    instr: &'a Instr,
) -> Result<Option<End>, NoMemory>
    requires next { IsNext store.old instr.now }
    requires kind { (goes_alone instr.now.act ≡ true) × (alone_events instr.now.act ≡ []) }
    ensures { IfOk result (λ end. Advanced store.old end store.new log.old.events log.new.events) }
{
    match store.alone(instr) {
        Ok(_) => Ok(None),
        Err(stop) => stopped(stop),
    }
}

/// A region is entered.
fn enter<'a>(
    store: &mut Store<'a>,
    log: &mut Log,
    instr: &'a Instr,
    region: u32,
) -> Result<Option<End>, NoMemory>
    requires next { IsNext store.old instr.now }
    requires kind { instr.now.act ≡ act.Enter region }
    ensures { IfOk result (λ end. Advanced store.old end store.new log.old.events log.new.events) }
{
    if store.regions() > REGION_LIMIT {
        return Err(NoMemory);
    }
    store.enter(instr);
    note_enter(log, region)?;
    Ok(None)
}

/// A region is left.
fn exit<'a>(store: &mut Store<'a>, log: &mut Log, instr: &'a Instr) -> Result<Option<End>, NoMemory>
    requires next { IsNext store.old instr.now }
    requires kind { instr.now.act ≡ act.Exit }
    ensures { IfOk result (λ end. Advanced store.old end store.new log.old.events log.new.events) }
{
    store.exit(instr);
    note_exits(log, 1)?;
    Ok(None)
}

/// The function of a number.
pub fn function_at(funcs: &[CodeFunc], func: u32) -> CodeFunc
    requires { func < length funcs.now }
    ensures { slice_get funcs.now func ≡ Some result }
{
    funcs[func as usize]
}

/// The function of this number is called.
fn call<'a>(
    alloc: Global,
    store: &mut Store<'a>,
    log: &mut Log,
    instr: &'a Instr,
    func: u32,
) -> Result<Option<End>, NoMemory>
    requires next { IsNext store.old instr.now }
    requires kind { (args : List ArgValue) × ((to : Option ℕ) × (instr.now.act ≡ act.Call func args to)) }
    ensures { IfOk result (λ end. Advanced store.old end store.new log.old.events log.new.events) }
{
    let code = store.code();
    let f = function_at(code.funcs.as_slice(), func);
    store.read_operands(&mut log.reads, instr)?;
    let under = store.control();
    match store.call(instr) {
        Ok(Calling::Entered) => {
            note_under(alloc, log, Class::Call, instr, under)?;
            note_enter(log, f.region)?;
            Ok(None)
        }
        Ok(Calling::Overflowed(end)) => {
            note_under(alloc, log, Class::Call, instr, under)?;
            Ok(Some(end))
        }
        Err(stop) => stopped(stop),
    }
}

/// A call returns.
fn leave<'a>(
    alloc: Global,
    store: &mut Store<'a>,
    log: &mut Log,
    instr: &'a Instr,
    moves: bool,
) -> Result<Option<End>, NoMemory>
    requires next { IsNext store.old instr.now }
    requires kind { (value : Option ArgValue) × (instr.now.act ≡ act.Return value) × (moves ≡ is_given value) }
    ensures { IfOk result (λ end. Advanced store.old end store.new log.old.events log.new.events) }
{
    match store.may_return(instr) {
        Ok(()) => leave_now(alloc, store, log, instr, moves),
        Err(end) => Ok(Some(end)),
    }
}

/// A call returns that may.
fn leave_now<'a>(
    alloc: Global,
    store: &mut Store<'a>,
    log: &mut Log,
    instr: &'a Instr,
    moves: bool,
) -> Result<Option<End>, NoMemory>
    requires next { IsNext store.old instr.now }
    requires kind { (value : Option ArgValue) × (instr.now.act ≡ act.Return value) × (moves ≡ is_given value) }
    requires may { may_leave (configuration_of store.old) instr.now.act ≡ true }
    ensures { IfOk result (λ end. Advanced store.old end store.new log.old.events log.new.events) }
{
    store.read_operands(&mut log.reads, instr)?;
    let under = store.control();
    note_moved(alloc, log, moves, instr, under)?;
    let count = store.regions();
    note_exits(log, count)?;
    Ok(store.leave(instr))
}
