//! What a core keeps. Its functions tell how its parts change; the core keeps that they fit.
ghost use Rattle.std.specs.Prelude.{◌≡◌, ◌<◌, ◌+◌, ◌-◌, ◌++◌, [], false, Some, None, IfOk, OnOk, OnErr, length, slice_get, slice_set, slice_index_or};
ghost use Rattle.k_replay_record.specs.Records.{IsRecord};
ghost use Rattle.k_replay_record.specs.Serial.{step_bytes, step_value};
ghost use Rattle.k_replay.specs.Calls.{Fires, Takes};
ghost use Rattle.k_replay.specs.Kept.{IsKept, NamesBelow, Renews};
ghost use Rattle.k_replay.specs.Plays.{bytes_at, can_give, given_in, held_by, started, value_at};

use crate::answer::{Deal, FireFault};
use crate::ready_set::ReadySet;
use crate::renewal::{renew, renew_all};
use crate::sources::{given, read};
use crate::users::users;
use k_num::{NoMemory, Seq};
use k_replay_record::{Datum, Record, Step, value, write};
use std::alloc::Global;
use std::marker::Model;

/// What a core keeps.
#[derive(Drop)]
pub(crate) struct State<'a> {
    alloc: Global,
    tape: &'a Record,
    held: Vec<Option<u64>>,
    values: Vec<Option<Datum>>,
    output: Vec<u8>,
    left: u64,
    ready: ReadySet,
    users: Vec<Seq<u64>>,
    /// The values of a step's operands, and the bytes that it writes.
    operands: Vec<Datum>,
    bytes: Vec<u8>,
}

impl<'a> Model for State<'a> {
    ghost use Rattle.k_replay.specs.Kept.{Kept};

    ghost Value = { Kept };

    ghost view = { λ s. record {
      play = record { tape = s.tape.now; held = s.held.items; values = s.values.items; output = s.output.items };
      left = s.left;
      ready = s.ready;
      users = s.users.items;
    } };
}

impl<'a> State<'a> {
    /// Nothing is held or fired.
    pub(crate) fn new(alloc: Global, tape: &'a Record, workers: u32) -> Result<State<'a>, NoMemory>
        requires { IsRecord tape.now }
        ensures started { IfOk result (λ s. s.play ≡ started tape.now workers) }
        ensures kept { IfOk result (λ s. IsKept s) }
    {
        let steps = tape.steps.as_slice();
        let users = users(alloc, steps)?;
        let held = Vec::from_elem(alloc, None, workers as usize)?;
        let values = Vec::from_elem(alloc, None, steps.len())?;
        let mut ready = ReadySet::new(alloc, steps.len())?;
        renew_all(steps, &held, &values, &mut ready);
        Ok(State {
            alloc,
            tape,
            held,
            values,
            output: Vec::new(alloc),
            left: steps.len() as u64,
            ready,
            users,
            operands: Vec::new(alloc),
            bytes: Vec::new(alloc),
        })
    }

    /// The operation that a worker holds.
    pub(crate) fn held_by(&self, worker: u32) -> Option<u64>
        ensures { result ≡ held_by self.now.play worker }
    {
        match self.held.get(worker as usize) {
            Some(held) => *held,
            None => None,
        }
    }

    /// The value of an operation that is fired.
    pub(crate) fn value(&self, op: u64) -> Option<Datum>
        ensures { result ≡ given_in self.now.play.values op }
    {
        given(&self.values, op)
    }

    /// The bytes that were written.
    pub(crate) fn output(&self) -> &[u8]
        ensures { result.now ≡ self.now.play.output }
    {
        &self.output
    }

    /// How many operations are not fired.
    pub(crate) fn left(&self) -> u64
        ensures { result ≡ self.now.left }
    {
        self.left
    }

    /// Gives a worker an operation, if it holds none.
    pub(crate) fn take(&mut self, worker: u32) -> Deal
        requires kept { IsKept self.old }
        requires within { worker < length self.old.play.held }
        ensures takes { Takes self.old.play worker result self.new.play }
        ensures kept { IsKept self.new }
    {
        if let Some(k) = self.held_by(worker) {
            return Deal::Held(k);
        }
        match self.ready.first() {
            Some(k) => {
                self.give(worker, k);
                Deal::Given(k as u64)
            }
            None => Deal::Idle,
        }
    }

    /// A worker holds an operation from now on, which can be given no more.
    fn give(&mut self, worker: u32, k: usize)
        requires within { worker < length self.old.play.held }
        requires flag { k < length self.old.ready }
        ensures { self.new ≡ record self.old { play = record self.old.play { held = slice_set self.old.play.held worker (Some k) }; ready = slice_set self.old.ready k false } }
    {
        self.ready.set(k, false);
        self.held[worker as usize] = Some(k as u64);
    }

    /// Fires the operation that a worker holds.
    pub(crate) fn fire(&mut self, worker: u32) -> Result<u64, FireFault>
        requires kept { IsKept self.old }
        requires within { worker < length self.old.play.held }
        ensures fires { Fires self.old.play worker result self.new.play }
        ensures kept { IsKept self.new }
    {
        let Some(k) = self.held_by(worker) else {
            return Err(FireFault::NoneHeld);
        };
        match self.perform(k) {
            Ok(value) => {
                self.finish(worker, k, value);
                Ok(k)
            }
            Err(NoMemory) => Err(FireFault::Memory),
        }
    }

    /// The value of an operation. Its bytes are written.
    fn perform(&mut self, k: u64) -> Result<Datum, NoMemory>
        requires { k < length self.old.play.tape.steps }
        ensures ok { IfOk result (λ d. d ≡ value_at self.old.play.values (slice_get self.old.play.tape.steps k)) }
        ensures written { IfOk result (λ d. self.new ≡ record self.old { play = record self.old.play { output = self.old.play.output ++ bytes_at self.old.play.values (slice_get self.old.play.tape.steps k) } }) }
        ensures err { OnErr result (self.new ≡ self.old) }
    {
        let step = &self.tape.steps.as_slice()[k as usize];
        let value = made(
            self.alloc,
            step,
            &self.values,
            &mut self.operands,
            &mut self.bytes,
        )?;
        self.output.extend_from_slice(&self.bytes)?;
        Ok(value)
    }

    /// An operation that a worker held has a value, and is held no more.
    fn finish(&mut self, worker: u32, k: u64, value: Datum)
        requires within { worker < length self.old.play.held }
        requires value { k < length self.old.play.values }
        requires list { k < length self.old.users }
        requires some { 0 < self.old.left }
        requires named { NamesBelow self.old.users (length self.old.ready) }
        ensures play { self.new.play ≡ record self.old.play { held = slice_set self.old.play.held worker None; values = slice_set self.old.play.values k (Some value) } }
        ensures left { self.new.left ≡ self.old.left - 1 }
        ensures users { self.new.users ≡ self.old.users }
        ensures ready { Renews (slice_index_or self.old.users k []) (can_give self.new.play.tape.steps self.new.play.held self.new.play.values) self.old.ready self.new.ready }
    {
        self.held[worker as usize] = None;
        self.values[k as usize] = Some(value);
        self.left -= 1;
        renew(
            self.tape.steps.as_slice(),
            &self.held,
            &self.values,
            self.users[k as usize].as_slice(),
            &mut self.ready,
        );
    }
}

/// The value of a step. Its operands' values and its bytes are put in place of those that stand there.
fn made(
    alloc: Global,
    step: &Step,
    values: &[Option<Datum>],
    operands: &mut Vec<Datum>,
    bytes: &mut Vec<u8>,
) -> Result<Datum, NoMemory>
    ensures value { IfOk result (λ d. d ≡ step_value (given_in values.now) step.now) }
    ensures bytes { OnOk result (bytes.new.items ≡ step_bytes (given_in values.now) step.now) }
{
    read(values, step.operands.as_slice(), operands)?;
    write(alloc, &step.act, operands, bytes)?;
    Ok(value(&step.act, operands, bytes.len()))
}
