//! Calls and returns.
ghost use Rattle.std.specs.Prelude.{◌≡◌, ℕ, ◌+◌, ◌-◌, ◌^◌, ◌<◌, ◌≤◌, [], ◌∷◌, List, length, map, take, min, reverse, slice_get, Option, Some, None, Bool, true, false, MatchOption, MatchResult};
ghost use Rattle.k_code.specs.declared.code.CodeFunc.{CodeFunc};
ghost use Rattle.k_code.specs.declared.instruction.Arg.{Arg};
ghost use Rattle.k_code.specs.declared.instruction.Do.TheVariants as act;
ghost use Rattle.k_code.specs.Steps.{no_value as no_value_meant, overflows as overflows_meant, read_of, size_of as size_meant};
ghost use Rattle.k_world.specs.Operands.{is_set, source_in};
ghost use Rattle.k_world.specs.Values.{exit_of as exit_meant, int_of as int_meant};
ghost use Rattle.k_world.specs.Worlds.{World};
ghost use Rattle.k_hcpa_store.specs.Calls.{CallsTo, Gives, LeavesBy, dropped, move_fault, resumed, value_fault};
ghost use Rattle.k_hcpa_store.specs.Parts.{IsWithin};
ghost use Rattle.k_num.specs.declared.place.Place.{Place};
ghost use Rattle.k_hcpa_store.specs.Kept.{configuration_of, window};
ghost use Rattle.k_hcpa_store.specs.Leads.{Calls, CallsSurely, IsNext, IsWithinLimits, Leaves, MayReturn, NotOver, may_leave};
ghost use Rattle.k_hcpa_store.specs.Slots.{CanKeep};
ghost use Rattle.k_hcpa_store.specs.Sound.{IsSound};

use super::State;
use crate::Calling;
use crate::call::{Call, Caller};
use crate::made::move_in;
use crate::registers::{read, read_all};
use k_code::{Arg, CodeFunc, Do, Instr};
use k_ending::{End, Trap};
use k_num::{Kind, Place, convert};
use k_world::{ActRef, Held, Stop, Value};

/// So many calls may be live at once.
const CALL_LIMIT: u64 = 4096;

/// So many nodes may the functions of the live calls have together.
const NODE_LIMIT: u64 = 1_048_576;

impl<'a> State<'a> {
    /// Makes the operation of a call and enters its function.
    pub fn call(&mut self, instr: &Instr) -> Result<Calling, Stop>
        requires sound { IsSound self.old }
        requires next { IsNext self.old instr.now }
        ensures calls { ((func : ℕ) (args : List Arg) (to : Option ℕ) (f : CodeFunc) → instr.now.act ≡ act.Call func args to → slice_get self.old.code.funcs func ≡ Some f → Calls self.old instr.now f result self.new) × IsSound self.new }
        ensures limits { IsWithinLimits self.old instr.now.act → NotOver result }
    {
        match &instr.act {
            Do::Call { func, args, to } => match self.function(*func) {
                Some(f) => self.call_function(instr.place, *func, f, args.as_slice(), *to),
                None => Err(Stop::Memory),
            },
            _ => Err(Stop::Memory),
        }
    }

    /// The same where that is sure: no limit is passed, an operation is left, all operands are set, and memory is found. Else nothing is changed.
    pub fn call_surely(&mut self, instr: &Instr) -> bool
        requires sound { IsSound self.old }
        requires next { IsNext self.old instr.now }
        ensures { ((func : ℕ) (args : List Arg) (to : Option ℕ) (f : CodeFunc) → instr.now.act ≡ act.Call func args to → slice_get self.old.code.funcs func ≡ Some f → CallsSurely self.old instr.now f result self.new) × IsSound self.new }
    {
        if !self.is_within_limits(&instr.act) {
            return false;
        }
        match self.call(instr) {
            Ok(Calling::Entered) => true,
            Ok(Calling::Overflowed(_end)) => false,
            Err(_stop) => false,
        }
    }

    /// Whether a call more, of the function that is called, would pass no limit.
    fn is_within_limits(&self, what: &Do) -> bool
        ensures { result ≡ true → IsWithinLimits self.now what.now }
    {
        match what {
            Do::Call { func, .. } => match self.function(*func) {
                Some(f) => !overflows(self.world.calls(), self.world.size(), f.size),
                None => false,
            },
            _ => false,
        }
    }

    /// The call of a function, once there is room for its registers and for its caller.
    fn call_function(
        &mut self,
        place: Place,
        func: u32,
        f: CodeFunc,
        args: &[Arg],
        to: Option<u32>,
    ) -> Result<Calling, Stop>
        requires first { self.old.call.first ≤ length self.old.registers }
        requires next { self.old.pc + 1 < 2 ^ 64 }
        ensures { CallsTo place f func args.now to self.old result self.new }
    {
        let Ok(()) = read_all(&mut self.reads, &self.registers, self.call.first, args) else {
            return Err(Stop::Memory);
        };
        let Ok(()) = self.waiting.reserve(1) else {
            return Err(Stop::Memory);
        };
        let first = self.registers.count();
        let Ok(()) = self.registers.begin(f, &self.reads) else {
            return Err(Stop::Memory);
        };
        let _done = match self.world.operation(place, ActRef::Call, &self.reads) {
            Ok(done) => done,
            Err(stop) => {
                self.registers.keep(first);
                return Err(stop);
            }
        };
        let (calls, size) = (self.world.calls(), self.world.size());
        if overflows(calls, size, f.size) {
            self.registers.keep(first);
            return Ok(Calling::Overflowed(End::Trapped(Trap::StackOverflow, place)));
        }
        let call = Call {
            func,
            first,
            saved: self.saved.len(),
            regions: 0,
            base: self.world.live_objects(),
        };
        self.waiting.push_reserved(Caller {
            call: self.call,
            back: self.pc + 1,
            to,
        });
        self.world.set_calls(calls + 1, size + u64::from(f.size));
        self.call = call;
        self.pc = f.entry as usize;
        Ok(Calling::Entered)
    }

    /// Whether the operation of a return can be made, if it has one.
    pub fn may_return(&self, instr: &Instr) -> Result<(), End>
        requires first { self.now.call.first ≤ length self.now.registers }
        requires next { IsNext self.now instr.now }
        ensures { (value : Option Arg) → instr.now.act ≡ act.Return value → MayReturn self.now instr.now result }
    {
        match &instr.act {
            Do::Return { value } => self.may_move(instr.place, value),
            _ => Ok(()),
        }
    }

    /// The same of what it returns.
    fn may_move(&self, place: Place, value: &Option<Arg>) -> Result<(), End>
        requires { self.now.call.first ≤ length self.now.registers }
        ensures { MatchResult result (λ may. value_fault self.now place value.now ≡ None) (λ end. value_fault self.now place value.now ≡ Some end) }
    {
        match self.fault(place, value) {
            Some(end) => Err(end),
            None => Ok(()),
        }
    }

    /// Does a return that may be made.
    pub fn leave_by(&mut self, instr: &Instr) -> Option<End>
        requires sound { IsSound self.old }
        requires next { IsNext self.old instr.now }
        requires may { may_leave (configuration_of self.old) instr.now.act ≡ true }
        ensures { ((value : Option Arg) → instr.now.act ≡ act.Return value → Leaves self.old instr.now result self.new) × IsSound self.new }
    {
        match &instr.act {
            Do::Return { value } => self.leave(value),
            _ => None,
        }
    }

    /// Does what a return does: the caller goes on, or the run is over.
    fn leave(&mut self, value: &Option<Arg>) -> Option<End>
        requires sound { IsSound self.old }
        requires may { (place : Place) → value_fault self.old place value.now ≡ None }
        ensures { LeavesBy value.now self.old result self.new }
    {
        let slot = self.returned(value);
        match self.pop_caller() {
            Some(caller) => {
                self.drop_call();
                self.resume(caller, slot);
                None
            }
            None => Some(End::Returned(exit_of(slot))),
        }
    }

    /// Why the operation of a return is not made, if it is not.
    fn fault(&self, place: Place, value: &Option<Arg>) -> Option<End>
        requires { self.now.call.first ≤ length self.now.registers }
        ensures { result ≡ value_fault self.now place value.now }
    {
        match value {
            Some(a) => self.move_fault(place, a),
            None => None,
        }
    }

    /// Why what an operand reads can't be moved, if it can't.
    fn move_fault(&self, place: Place, a: &Arg) -> Option<End>
        requires { self.now.call.first ≤ length self.now.registers }
        ensures { result ≡ move_fault self.now.world.left (read_of (window self.now.registers self.now.call.first) a.now) place }
    {
        if self.world.left() == 0 {
            return Some(End::OutOfSteps);
        }
        match read(&self.registers, self.call.first, a).slot {
            Some(_) => None,
            None => Some(End::Trapped(Trap::Uninit, place)),
        }
    }

    /// What a return gives, by its operation if it has a value.
    fn returned(&mut self, value: &Option<Arg>) -> Option<Held>
        requires first { self.old.call.first ≤ length self.old.registers }
        requires may { (place : Place) → value_fault self.old place value.now ≡ None }
        ensures gives { Gives value.now self.old result self.new }
        ensures keeps { CanKeep (source_in result) }
    {
        match value {
            Some(a) => self.move_operand(a),
            None => no_value(self.call.func == self.code.main),
        }
    }

    /// What an operand reads is moved.
    fn move_operand(&mut self, a: &Arg) -> Option<Held>
        requires first { self.old.call.first ≤ length self.old.registers }
        requires left { 0 < self.old.world.left }
        requires set { is_set (read_of (window self.old.registers self.old.call.first) a.now).slot ≡ true }
        ensures gives { Gives (Some a.now) self.old result self.new }
        ensures keeps { CanKeep (source_in result) }
    {
        let moved = read(&self.registers, self.call.first, a);
        match moved.slot {
            Some(held) => Some(move_in(&mut self.world, held).held),
            None => None,
        }
    }

    /// The call that waited last, if there is one, waits no more.
    fn pop_caller(&mut self) -> Option<Caller>
        ensures { MatchOption result ((self.old.waiting ≡ []) × (self.new ≡ self.old)) (λ w. self.old ≡ record self.new { waiting = w ∷ self.new.waiting }) }
    {
        self.waiting.pop()
    }

    /// The newest call is no more.
    fn drop_call(&mut self)
        ensures { self.new ≡ dropped self.old }
    {
        let keep = self.call.base.min(self.world.live_objects());
        self.world.pop_objects(keep);
        let calls = self.world.calls().saturating_sub(1);
        let size = self.world.size().saturating_sub(u64::from(size_at(
            self.code.funcs.as_slice(),
            self.call.func,
        )));
        self.world.set_calls(calls, size);
        self.registers.keep(self.call.first);
        self.saved.truncate(self.call.saved);
    }

    /// A call that waited goes on.
    fn resume(&mut self, caller: Caller, slot: Option<Held>)
        requires within { IsWithin caller.call.first caller.to self.old.registers }
        requires keeps { CanKeep (source_in slot) }
        ensures { self.new ≡ resumed caller slot self.old }
    {
        self.call = caller.call;
        self.set_and_on(caller.to, slot, caller.back);
    }

    /// The function of a number.
    fn function(&self, func: u32) -> Option<CodeFunc>
        ensures { result ≡ slice_get self.now.code.funcs func }
    {
        match self.code.funcs.as_slice().get(func as usize) {
            Some(f) => Some(*f),
            None => None,
        }
    }
}

/// The size of the function of a number.
fn size_at(funcs: &[CodeFunc], func: u32) -> u32
    ensures { result ≡ size_meant (slice_get funcs.now func) }
{
    match funcs.get(func as usize) {
        Some(f) => f.size,
        None => 0,
    }
}

/// A call more, of a function of this size, would pass a limit.
fn overflows(calls: u64, size: u64, more: u32) -> bool
    ensures meant { (w : World) → w.calls ≡ calls → w.size ≡ size → result ≡ overflows_meant w more }
    ensures small { result ≡ false → (calls < 4096) × (size + more ≤ 1048576) }
{
    calls >= CALL_LIMIT || size.saturating_add(u64::from(more)) > NODE_LIMIT
}

/// What is returned without a value: main gives 0.
fn no_value(is_main: bool) -> Option<Held>
    ensures meant { result ≡ no_value_meant is_main }
    ensures keeps { CanKeep (source_in result) }
{
    if is_main {
        Some(Held {
            value: Value::Number(0),
            source: None,
        })
    } else {
        None
    }
}

/// The number that main gives.
fn exit_of(held: Option<Held>) -> i32
    ensures { result ≡ exit_meant held }
{
    match held {
        None => 0,
        Some(held) => int_of(held.value),
    }
}

/// The number that a value is, as an int.
fn int_of(value: Value) -> i32
    ensures { result ≡ int_meant value }
{
    match value {
        Value::Number(number) => convert(Kind::I32, number) as i32,
        Value::Pointer(_) => 0,
    }
}
