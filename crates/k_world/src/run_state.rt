//! The state of a running program, but for the list of its events.
ghost use Rattle.std.specs.Prelude.{◌≡◌, ◌+◌, ◌-◌, ◌<◌, ℕ, List, [], ◌∷◌, length, Bool, true, false, IfOk};
ghost use Rattle.k_num.specs.declared.place.Place.{Place};
ghost use Rattle.k_optab.specs.declared.class.Class.{Class};
ghost use Rattle.k_world.specs.Acts.{behind_byte as behind_byte_of, next_byte as next_byte_of, origin_of, touched, with_origin};
ghost use Rattle.k_world.specs.Answers.{Makes, Performs, act_of, done_of, performed_of, stop_of};
ghost use Rattle.k_world.specs.declared.act.Act.TheVariants.{Move, Load, Store, Input, Output, Test};
ghost use Rattle.k_world.specs.declared.value.Value.{Value};
ghost use Rattle.k_world.specs.Operands.{are_set as are_all_set, values_of};
ghost use Rattle.k_world.specs.Worlds.{fresh};

use crate::answer::{Done, Performed, Refusal, Stop};
use crate::operands::{are_set, one_pointer, pointer_and_number};
use crate::pointers::{compare, difference, offset};
use crate::works::{binary, convert_to, move_one, test, trap_of_memory, unary};
use crate::{ActRef, Held, Out, Read, Value, output};
use k_ending::{End, Trap};
use k_mem::Objects;
use k_num::Place;
use std::alloc::Global;
use std::marker::Model;

mod counts;
mod objects;
mod quick;

/// A running program's state, which contracts see as a world without events in which nothing is told. Each live element has an origin, and there are no others.
#[derive(Drop)]
pub struct RunState<'a> {
    alloc: Global,
    made: u64,
    budget: u64,
    control: Option<u64>,
    in_cell: Option<u64>,
    out_cell: Option<u64>,
    input: &'a [u8],
    output: Vec<u8>,
    scratch: Vec<u8>,
    objects: Objects,
    origins: Vec<Option<u64>>,
    calls: u64,
    size: u64,
}

impl<'a> Model for RunState<'a> {
    ghost use Rattle.std.specs.Prelude.{◌≡◌, false, [], ◌-◌, length};
    ghost use Rattle.k_mem.specs.Memory.{live_elements};
    ghost use Rattle.k_world.specs.Worlds.{World};

    ghost Value = { World };

    ghost view = { λ s. record {
      events = [];
      made = s.made;
      left = s.budget - s.made;
      control = s.control;
      in_cell = s.in_cell;
      out_cell = s.out_cell;
      input = s.input.now;
      output = s.output.items;
      memory = s.objects;
      origins = s.origins.items;
      calls = s.calls;
      size = s.size;
      telling = false;
      deeds = [];
    } };

    ghost invariant = { λ s. length s.origins.items ≡ live_elements s.objects };
}

impl<'a> RunState<'a> {
    /// Nothing has happened, so many operations may be made, and this is the input.
    pub fn new(alloc: Global, budget: u64, input: &'a [u8]) -> RunState<'a>
        ensures { result ≡ fresh budget input.now }
    {
        RunState {
            alloc,
            made: 0,
            budget,
            control: None,
            in_cell: None,
            out_cell: None,
            input,
            output: Vec::new(alloc),
            scratch: Vec::new(alloc),
            objects: Objects::new(alloc),
            origins: Vec::new(alloc),
            calls: 0,
            size: 0,
        }
    }

    /// The control source now. Nothing is told here.
    #[inline(always)]
    pub fn control(&self) -> Option<u64>
        ensures source { result ≡ self.now.control }
        ensures quiet { self.now.telling ≡ false }
    {
        self.control
    }

    /// The control source is this from now on.
    #[inline(always)]
    pub fn set_control(&mut self, control: Option<u64>)
        ensures { self.new ≡ record self.old { control = control } }
    {
        self.control = control;
    }

    /// The bytes that were written so far.
    pub fn written(&self) -> &[u8]
        ensures { result.now ≡ self.now.output }
    {
        &self.output
    }

    /// The bytes that were written so far are kept no longer.
    pub fn drop_written(&mut self)
        ensures { self.new ≡ record self.old { output = [] } }
    {
        self.output.clear();
    }

    /// Makes an operation, or says how the run ends before it. Its class and its latency are told by the event alone, which
    /// is the caller's to add.
    pub fn operation(&mut self, place: Place, act: ActRef<'_>, reads: &[Read]) -> Result<Done, Stop>
        ensures made { (class : Class) (latency : ℕ) → Makes class latency place (act_of act.entry) reads.now self.old result self.new }
        ensures element { IfOk result (λ done. touched (act_of act.entry) (values_of reads.now) self.old.memory ≡ done.element) }
    {
        if self.made >= self.budget {
            return Err(Stop::Ended(End::OutOfSteps));
        }
        if !are_set(reads) {
            return Err(Stop::Ended(End::Trapped(Trap::Uninit, place)));
        }
        let control = self.control;
        match self.perform(act, reads) {
            Ok(performed) => Ok(self.count(performed, control)),
            Err(refusal) => Err(stopped(refusal, place)),
        }
    }

    /// Moves a value by an operation, which is left: so it is made.
    #[inline(always)]
    #[tactic(auto, using(crate::proofs::Operations::move_made))]
    pub fn move_held(&mut self, held: Held) -> Done
        requires { 0 < self.old.left }
        ensures { (class : Class) (latency : ℕ) (place : Place) (broken : Bool) → Makes class latency place Move (record { slot = Some held; broken = broken } ∷ []) self.old (Ok result) self.new }
    {
        let control = self.control;
        let performed = Performed {
            value: held.value,
            hidden: None,
            element: None,
        };
        self.count(performed, control)
    }

    /// An operation was made.
    #[inline(always)]
    fn count(&mut self, performed: Performed, control: Option<u64>) -> Done
        requires { 0 < self.old.left }
        ensures state { self.new ≡ record self.old { made = self.old.made + 1; left = self.old.left - 1 } }
        ensures done { result ≡ done_of self.old.made performed control }
    {
        let number = self.made;
        self.made += 1;
        Done {
            held: Held {
                value: performed.value,
                source: Some(number),
            },
            hidden: performed.hidden,
            control,
            element: performed.element,
        }
    }

    /// Does what an act does, as the next operation, but does not count it.
    #[tactic(auto, using(crate::proofs::Operations::performs_alone), unfolding(crate::specs::Acts::work, crate::specs::Acts::hidden, crate::specs::Acts::touched, crate::specs::Acts::effect))]
    fn perform(&mut self, act: ActRef<'_>, reads: &[Read]) -> Result<Performed, Refusal>
        requires { are_all_set reads.now ≡ true }
        ensures { Performs (act_of act.entry) (values_of reads.now) self.old result self.new }
    {
        match act {
            ActRef::Binary(op, kind) => performed(binary(op, kind, reads)),
            ActRef::Unary(op, kind) => performed(unary(op, kind, reads)),
            ActRef::Convert(kind) => performed(convert_to(kind, reads)),
            ActRef::Move => performed(move_one(reads)),
            ActRef::Offset { minus, scale } => performed(offset(
                &self.objects,
                minus,
                scale,
                reads,
            )),
            ActRef::PtrCompare(op) => performed(compare(&self.objects, op, reads)),
            ActRef::PtrDistance { scale } => performed(difference(&self.objects, scale, reads)),
            ActRef::Load => self.load(reads),
            ActRef::Store => self.store(reads),
            ActRef::Input => Ok(self.input()),
            ActRef::Output(what) => self.output(what, reads),
            ActRef::Test => self.test(reads),
            ActRef::Call => performed(Ok(Value::Number(0))),
        }
    }

    /// The element that a pointer points to is read.
    #[tactic(auto, unfolding(crate::specs::Acts::work, crate::specs::Acts::hidden, crate::specs::Acts::touched, crate::specs::Acts::effect))]
    fn load(&mut self, reads: &[Read]) -> Result<Performed, Refusal>
        requires { are_all_set reads.now ≡ true }
        ensures { Performs Load (values_of reads.now) self.old result self.new }
    {
        let Some(at) = one_pointer(reads) else {
            return Err(Refusal::Trapped(Trap::Uninit));
        };
        match self.objects.load(at) {
            Ok((number, element)) => Ok(Performed {
                value: Value::Number(number),
                hidden: origin_at(&self.origins, element),
                element: Some(element),
            }),
            Err(trap) => Err(Refusal::Trapped(trap_of_memory(trap))),
        }
    }

    /// The element that a pointer points to is set, by the next operation.
    #[tactic(auto, unfolding(crate::specs::Acts::work, crate::specs::Acts::hidden, crate::specs::Acts::touched, crate::specs::Acts::effect))]
    fn store(&mut self, reads: &[Read]) -> Result<Performed, Refusal>
        requires { are_all_set reads.now ≡ true }
        ensures { Performs Store (values_of reads.now) self.old result self.new }
    {
        let Some((at, number)) = pointer_and_number(reads) else {
            return Err(Refusal::Trapped(Trap::Uninit));
        };
        match self.objects.store(at, number) {
            Ok(element) => {
                set_origin(&mut self.origins, element, self.made);
                Ok(Performed {
                    value: Value::Number(number),
                    hidden: None,
                    element: Some(element),
                })
            }
            Err(trap) => Err(Refusal::Trapped(trap_of_memory(trap))),
        }
    }

    /// The next byte is read, by the next operation.
    #[tactic(auto, unfolding(crate::specs::Acts::work, crate::specs::Acts::hidden, crate::specs::Acts::touched, crate::specs::Acts::effect))]
    fn input(&mut self) -> Performed
        ensures { (values : List Value) → Performs Input values self.old (Ok result) self.new }
    {
        let hidden = self.in_cell;
        self.in_cell = Some(self.made);
        let value = next_byte(self.input);
        self.input = behind_byte(self.input);
        Performed {
            value,
            hidden,
            element: None,
        }
    }

    /// Bytes are written, by the next operation.
    #[tactic(auto, unfolding(crate::specs::Acts::work, crate::specs::Acts::hidden, crate::specs::Acts::touched, crate::specs::Acts::effect))]
    fn output(&mut self, what: &Out, reads: &[Read]) -> Result<Performed, Refusal>
        requires { are_all_set reads.now ≡ true }
        ensures { Performs (Output what.now) (values_of reads.now) self.old result self.new }
    {
        output::write(self.alloc, &mut self.scratch, what, reads)?;
        self.output.extend_from_slice(&self.scratch)?;
        let hidden = self.out_cell;
        self.out_cell = Some(self.made);
        Ok(Performed {
            value: output::value(what, &self.scratch),
            hidden,
            element: None,
        })
    }

    /// A condition is tested, by the next operation.
    #[tactic(auto, unfolding(crate::specs::Acts::work, crate::specs::Acts::hidden, crate::specs::Acts::touched, crate::specs::Acts::effect))]
    fn test(&mut self, reads: &[Read]) -> Result<Performed, Refusal>
        requires { are_all_set reads.now ≡ true }
        ensures { Performs Test (values_of reads.now) self.old result self.new }
    {
        match test(reads) {
            Ok(value) => {
                self.control = Some(self.made);
                Ok(Performed {
                    value,
                    hidden: None,
                    element: None,
                })
            }
            Err(trap) => Err(Refusal::Trapped(trap)),
        }
    }
}

/// Why the run does not go on at this place, where an act has no value.
fn stopped(refusal: Refusal, place: Place) -> Stop
    ensures { result ≡ stop_of refusal place }
{
    match refusal {
        Refusal::Trapped(trap) => Stop::Ended(End::Trapped(trap, place)),
        Refusal::Memory => Stop::Memory,
    }
}

/// What an act gave that reads and writes nothing of the state.
fn performed(given: Result<Value, Trap>) -> Result<Performed, Refusal>
    ensures { result ≡ performed_of given }
{
    match given {
        Ok(value) => Ok(Performed {
            value,
            hidden: None,
            element: None,
        }),
        Err(trap) => Err(Refusal::Trapped(trap)),
    }
}

/// The operation that gave an element its value.
#[inline(always)]
fn origin_at(origins: &[Option<u64>], element: u32) -> Option<u64>
    requires { element < length origins.now }
    ensures { result ≡ origin_of (Some element) origins.now }
{
    origins[element as usize]
}

/// An element's value came from the operation of this number.
#[inline(always)]
fn set_origin(origins: &mut [Option<u64>], element: u32, number: u64)
    requires { element < length origins.old }
    ensures { origins.new ≡ with_origin (Some element) number origins.old }
{
    origins[element as usize] = Some(number);
}

/// The next byte of an input, or -1 at its end.
fn next_byte(input: &[u8]) -> Value
    ensures { result ≡ next_byte_of input.now }
{
    match input {
        [byte, ..] => Value::Number(i128::from(*byte)),
        [] => Value::Number(-1),
    }
}

/// The input behind its next byte.
fn behind_byte(input: &[u8]) -> &[u8]
    ensures { result.now ≡ behind_byte_of input.now }
{
    match input {
        [_, rest @ ..] => rest,
        [] => input,
    }
}
