//! The core: what each worker holds, what is fired, and what was written.
ghost use Rattle.std.specs.Prelude.{◌≡◌, ◌<◌, ◌≤◌, ◌++◌, ◌⊎◌, ◌↔◌, ℕ, List, IfOk, IfSome, IsSome, length, is_some, slice_get, Some};
ghost use Rattle.k_replay_record.specs.Records.{IsRecord};
ghost use Rattle.k_replay_record.specs.Serial.{serial};
ghost use Rattle.k_replay.specs.Calls.{Fires, IsHolding, Takes};
ghost use Rattle.k_replay.specs.Orders.{GivesNext};
ghost use Rattle.k_replay.specs.Plays.{given_in, held_by, left_in, started};
ghost use Rattle.k_replay.specs.Sound.{IsSound};

use crate::answer::{Deal, FireFault};
use crate::state::State;
use k_num::NoMemory;
use k_replay_record::{Datum, Record};
use std::alloc::Global;
use std::marker::Model;

/// The operations of a recorded run while workers take and fire them.
#[derive(Drop)]
pub struct Core<'a> {
    state: State<'a>,
}

impl<'a> Model for Core<'a> {
    ghost use Rattle.k_replay.specs.Kept.{IsKept};
    ghost use Rattle.k_replay.specs.Plays.{Play};

    ghost Value = { Play };

    ghost view = { λ c. c.state.play };

    ghost invariant = { λ c. IsKept c.state };
}

impl<'a> Core<'a> {
    /// A core for so many workers, 1 to 16. Nothing is taken or fired.
    pub fn new(alloc: Global, tape: &'a Record, workers: u32) -> Result<Core<'a>, NoMemory>
        requires some { 1 ≤ workers }
        requires few { workers ≤ 16 }
        requires tape { IsRecord tape.now }
        ensures { IfOk result (λ core. core ≡ started tape.now workers) }
    {
        Ok(Core {
            state: State::new(alloc, tape, workers)?,
        })
    }

    /// Deals a worker an operation to fire, the least that can be given.
    pub fn take(&mut self, worker: u32) -> Deal
        requires { worker < length self.old.held }
        ensures takes { Takes self.old worker result self.new }
        ensures workers { length self.new.held ≡ length self.old.held }
    {
        self.state.take(worker)
    }

    /// Fires the operation that a worker holds, and tells its number.
    pub fn fire(&mut self, worker: u32) -> Result<u64, FireFault>
        requires { worker < length self.old.held }
        ensures fires { Fires self.old worker result self.new }
        ensures workers { length self.new.held ≡ length self.old.held }
    {
        self.state.fire(worker)
    }

    /// The value of an operation that is fired.
    pub fn value(&self, op: u64) -> Option<Datum>
        ensures value { result ≡ given_in self.now.values op }
        ensures serial { IfSome result (λ d. slice_get (serial self.now.tape.steps) op ≡ Some d) }
    {
        self.state.value(op)
    }

    /// The bytes that were written so far.
    pub fn output(&self) -> &[u8]
        ensures output { result.now ≡ self.now.output }
        ensures prefix { (rest : List ℕ) × (self.now.output ++ rest ≡ self.now.tape.output) }
    {
        self.state.output()
    }

    /// How many operations are not yet fired.
    pub fn left(&self) -> u64
        ensures left { result ≡ left_in self.now.values }
        ensures whole { result ≡ 0 → self.now.output ≡ self.now.tape.output }
        ensures sound { IsSound self.now }
        ensures goes_on { 0 < result → ((worker : ℕ) × IsHolding self.now worker) ⊎ GivesNext self.now }
    {
        self.state.left()
    }
}
