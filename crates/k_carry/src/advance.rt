//! One instruction of a run, and what happened by it.
ghost use Rattle.std.specs.Prelude.{◌≡◌, ℕ, ◌+◌, ◌<◌, ◌^◌, [], IfOk, List, Option, Some, None, is_some, length, slice_get, true};
ghost use Rattle.k_ending.specs.declared.ending.End.{End as EndValue};
ghost use Rattle.k_world.specs.declared.answer.Stop.TheVariants.{Ended};
ghost use Rattle.k_code.specs.declared.instruction.Arg.{Arg as ArgValue};
ghost use Rattle.k_code.specs.declared.instruction.Do.TheVariants as act;
ghost use Rattle.k_hcpa_store.specs.Kept.{configuration_of};
ghost use Rattle.k_hcpa_store.specs.Leads.{IsNext, alone_events, goes_alone, goes_by, may_leave};
ghost use Rattle.k_carry.specs.Steps.{Advances, is_given, moved as moved_meant, none_happened};

use crate::kind::{Kind, kind_of};
use k_code::{Code, CodeFunc, Instr};
use k_ending::End;
use k_hcpa_store::{Calling, Store};
use k_num::NoMemory;
use k_world::{Done, Stop};

/// An operation that was made: the sources of its hidden operand and of the control, and the element that it read or wrote.
#[derive(Clone, Copy)]
pub struct Made {
    pub hidden: Option<u64>,
    pub control: Option<u64>,
    pub element: Option<u32>,
}

/// What happened by an instruction: an operation, an instance that was entered, so many that were left; and how the run ended, if it did.
#[derive(Clone, Copy)]
pub struct Happened {
    pub operation: Option<Made>,
    pub entered: Option<u32>,
    pub left: u64,
    pub end: Option<End>,
}

/// Does the instruction that is next.
pub fn advance<'a>(
    store: &mut Store<'a>,
    code: &Code,
    instr: &'a Instr,
) -> Result<Happened, NoMemory>
    requires next { IsNext store.old instr.now }
    requires code { store.old.code ≡ code.now }
    requires few { (configuration_of store.old).frame.regions + 1 < 2 ^ 62 }
    ensures { IfOk result (λ h. Advances store.old instr.now h store.new) }
{
    match kind_of(&instr.act) {
        Kind::Operation => operate(store, instr),
        Kind::Alone => go_alone(store, instr),
        Kind::Enter(region) => enter(store, instr, region),
        Kind::Exit => exit(store, instr),
        Kind::Call(func) => call(store, code, instr, func),
        Kind::Return(moves) => leave(store, instr, moves),
    }
}

/// Nothing happened but that the run ended, or did not.
fn nothing(end: Option<End>) -> Happened
    ensures { result ≡ none_happened end }
{
    Happened {
        operation: None,
        entered: None,
        left: 0,
        end,
    }
}

/// The run has ended, or no memory was found.
fn stopped(stop: Stop) -> Result<Happened, NoMemory>
    ensures { IfOk result (λ h. (end : EndValue) × (stop ≡ Ended end) × (h ≡ none_happened (Some end))) }
{
    match stop {
        Stop::Ended(end) => Ok(nothing(Some(end))),
        Stop::Memory => Err(NoMemory),
    }
}

/// An operation was made.
fn told_by(done: Done) -> Made
    ensures hidden { result.hidden ≡ done.hidden }
    ensures control { result.control ≡ done.control }
{
    Made {
        hidden: done.hidden,
        control: done.control,
        element: done.element,
    }
}

/// An instruction that makes an operation and goes on in its call.
fn operate<'a>(store: &mut Store<'a>, instr: &'a Instr) -> Result<Happened, NoMemory>
    requires next { IsNext store.old instr.now }
    requires kind { is_some (goes_by instr.now.act) ≡ true }
    ensures { IfOk result (λ h. Advances store.old instr.now h store.new) }
{
    match store.operate(instr) {
        Ok(done) => Ok(Happened {
            operation: Some(told_by(done)),
            entered: None,
            left: 0,
            end: None,
        }),
        Err(Stop::Ended(end)) => Ok(nothing(Some(end))),
        Err(Stop::Memory) => Err(NoMemory),
    }
}

/// An instruction without events.
fn go_alone<'a>(store: &mut Store<'a>, instr: &'a Instr) -> Result<Happened, NoMemory>
    requires next { IsNext store.old instr.now }
    requires kind { (goes_alone instr.now.act ≡ true) × (alone_events instr.now.act ≡ []) }
    ensures { IfOk result (λ h. Advances store.old instr.now h store.new) }
{
    match store.alone(instr) {
        Ok(_) => Ok(nothing(None)),
        Err(Stop::Ended(end)) => Ok(nothing(Some(end))),
        Err(Stop::Memory) => Err(NoMemory),
    }
}

/// A region is entered.
fn enter<'a>(store: &mut Store<'a>, instr: &'a Instr, region: u32) -> Result<Happened, NoMemory>
    requires next { IsNext store.old instr.now }
    requires kind { instr.now.act ≡ act.Enter region }
    requires few { (configuration_of store.old).frame.regions + 1 < 2 ^ 62 }
    ensures { IfOk result (λ h. Advances store.old instr.now h store.new) }
{
    store.enter(instr);
    Ok(Happened {
        operation: None,
        entered: Some(region),
        left: 0,
        end: None,
    })
}

/// A region is left.
fn exit<'a>(store: &mut Store<'a>, instr: &'a Instr) -> Result<Happened, NoMemory>
    requires next { IsNext store.old instr.now }
    requires kind { instr.now.act ≡ act.Exit }
    ensures { IfOk result (λ h. Advances store.old instr.now h store.new) }
{
    store.exit(instr);
    Ok(Happened {
        operation: None,
        entered: None,
        left: 1,
        end: None,
    })
}

/// A function is called.
fn call<'a>(
    store: &mut Store<'a>,
    code: &Code,
    instr: &'a Instr,
    func: u32,
) -> Result<Happened, NoMemory>
    requires next { IsNext store.old instr.now }
    requires code { store.old.code ≡ code.now }
    requires kind { (args : List ArgValue) × ((to : Option ℕ) × (instr.now.act ≡ act.Call func args to)) }
    ensures { IfOk result (λ h. Advances store.old instr.now h store.new) }
{
    let f = function_at(code.funcs.as_slice(), func);
    let operation = Some(Made {
        hidden: None,
        control: store.control(),
        element: None,
    });
    match store.call(instr) {
        Ok(Calling::Entered) => Ok(Happened {
            operation,
            entered: Some(f.region),
            left: 0,
            end: None,
        }),
        Ok(Calling::Overflowed(end)) => Ok(Happened {
            operation,
            entered: None,
            left: 0,
            end: Some(end),
        }),
        Err(stop) => stopped(stop),
    }
}

/// The function of a number.
pub fn function_at(funcs: &[CodeFunc], func: u32) -> CodeFunc
    requires { func < length funcs.now }
    ensures { slice_get funcs.now func ≡ Some result }
{
    funcs[func as usize]
}

/// A call returns.
fn leave<'a>(store: &mut Store<'a>, instr: &'a Instr, moves: bool) -> Result<Happened, NoMemory>
    requires next { IsNext store.old instr.now }
    requires kind { (value : Option ArgValue) × (instr.now.act ≡ act.Return value) × (moves ≡ is_given value) }
    ensures { IfOk result (λ h. Advances store.old instr.now h store.new) }
{
    match store.may_return(instr) {
        Ok(()) => Ok(leave_now(store, instr, moves)),
        Err(end) => Ok(nothing(Some(end))),
    }
}

/// The operation that moves what is returned, under this control source, if one does.
fn moved(moves: bool, control: Option<u64>) -> Option<Made>
    ensures { result ≡ moved_meant moves control }
{
    if moves {
        Some(Made {
            hidden: None,
            control,
            element: None,
        })
    } else {
        None
    }
}

/// A call returns that may.
fn leave_now<'a>(store: &mut Store<'a>, instr: &'a Instr, moves: bool) -> Happened
    requires next { IsNext store.old instr.now }
    requires kind { (value : Option ArgValue) × (instr.now.act ≡ act.Return value) × (moves ≡ is_given value) }
    requires may { may_leave (configuration_of store.old) instr.now.act ≡ true }
    ensures { Advances store.old instr.now result store.new }
{
    let operation = moved(moves, store.control());
    let left = store.regions();
    let end = store.leave(instr);
    Happened {
        operation,
        entered: None,
        left,
        end,
    }
}
