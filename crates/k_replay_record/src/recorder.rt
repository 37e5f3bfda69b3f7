//! A record that is made step by step, with the values and the bytes of its serial run.
ghost use Rattle.std.specs.Prelude.{◌≡◌, ◌++◌, ◌∷◌, [], ◌↔◌, true, IfOk, OnOk, OnErr, IsTrue, map, slice_get};
ghost use Rattle.std.specs.List.{All};
ghost use Rattle.k_replay_record.specs.Acts.{writes as writes_of};
ghost use Rattle.k_replay_record.specs.Records.{HasSource, IsEarlier, IsRecord};
ghost use Rattle.k_replay_record.specs.Recorded.{FitsAt, FitsBehind, IsRecorded, with_step};
ghost use Rattle.k_replay_record.specs.Serial.{operand_value, serial, serial_bytes, step_bytes, step_value};

use crate::{Act, Datum, Operand, Record, Step, value, write};
use k_ending::End;
use k_num::{NoMemory, Seq};
use std::alloc::Global;
use std::marker::Model;

/// Why a step does not stand behind others.
#[derive(Clone, Copy, Debug, PartialEq, Eq)]
pub enum StepFault {
    /// A source of it is no earlier step, or it writes and the one that wrote before is no source of it.
    Unfit,
    /// No memory was found.
    Memory,
}

/// The steps so far, the value of each, the bytes that they write, and the number of the last one that does. After want of memory it is
/// of no use.
#[derive(Drop)]
pub struct Recorder {
    alloc: Global,
    steps: Seq<Step>,
    values: Vec<Datum>,
    output: Vec<u8>,
    last: Option<u64>,
    operands: Vec<Datum>,
    bytes: Vec<u8>,
}

impl Model for Recorder {
    ghost use Rattle.k_replay_record.specs.Recorded.{Recorded};

    ghost Value = { Recorded };

    ghost view = { λ r. record { steps = r.steps; values = r.values.items; output = r.output.items; last = r.last } };
}

impl Recorder {
    /// No step so far.
    pub fn new(alloc: Global) -> Recorder
        ensures steps { result.steps ≡ [] }
        ensures recorded { IsRecorded result }
    {
        Recorder {
            alloc,
            steps: Seq::new(alloc),
            values: Vec::new(alloc),
            output: Vec::new(alloc),
            last: None,
            operands: Vec::new(alloc),
            bytes: Vec::new(alloc),
        }
    }

    /// Adds a step, and tells its value.
    pub fn push(&mut self, step: Step) -> Result<Datum, StepFault>
        requires { IsRecorded self.old }
        ensures value { IfOk result (λ d. d ≡ step_value (slice_get (serial self.old.steps)) step) }
        ensures steps { OnOk result (self.new.steps ≡ self.old.steps ++ step ∷ []) }
        ensures recorded { OnOk result (IsRecorded self.new) }
        ensures unfit { result ≡ Err StepFault.Unfit → ¬ FitsBehind self.old.steps step }
    {
        if !fits(&step, self.values.len() as u64, self.last) {
            drop(step);
            return Err(StepFault::Unfit);
        }
        let Ok(value) = self.made(&step) else {
            drop(step);
            return Err(StepFault::Memory);
        };
        match self.add(step, value) {
            Ok(()) => Ok(value),
            Err(NoMemory) => Err(StepFault::Memory),
        }
    }

    /// The value of a step. Its bytes are put in place of those that stand there.
    fn made(&mut self, step: &Step) -> Result<Datum, NoMemory>
        ensures value { IfOk result (λ d. d ≡ step_value (slice_get self.old.values) step.now) }
        ensures written { OnOk result (self.new ≡ record self.old { output = self.old.output ++ step_bytes (slice_get self.old.values) step.now }) }
        ensures unchanged { OnErr result (self.new ≡ self.old) }
    {
        read(&self.values, step.operands.as_slice(), &mut self.operands)?;
        write(self.alloc, &step.act, &self.operands, &mut self.bytes)?;
        self.output.extend_from_slice(&self.bytes)?;
        Ok(value(&step.act, &self.operands, self.bytes.len()))
    }

    /// A step of this value stands behind the others.
    fn add(&mut self, step: Step, value: Datum) -> Result<(), NoMemory>
        ensures { OnOk result (self.new ≡ with_step step value self.old) }
    {
        if writes(&step.act) {
            self.last = Some(self.values.len() as u64);
        }
        if self.values.push(value).is_err() {
            drop(step);
            return Err(NoMemory);
        }
        self.steps.push(step)
    }

    /// The bytes that the steps write.
    pub fn output(&self) -> &[u8]
        ensures { result.now ≡ self.now.output }
    {
        &self.output
    }

    /// The record of the steps, with how the run ended.
    pub fn finish(self, end: End) -> Record
        requires { IsRecorded self }
        ensures recorded { IsRecord result }
        ensures steps { result.steps ≡ self.steps }
        ensures output { result.output ≡ serial_bytes self.steps }
        ensures end { result.end ≡ end }
    {
        let Recorder { steps, output, .. } = self;
        Record {
            steps,
            output: Seq::from_vec(output),
            end,
        }
    }
}

/// Whether a step can stand behind so many, of which this is the last that writes.
fn fits(step: &Step, count: u64, last: Option<u64>) -> bool
    ensures { IsTrue result ↔ FitsAt count last step.now }
{
    let operands = step.operands.as_slice();
    are_earlier(operands, count) && is_linked(&step.act, operands, last)
}

/// Whether the last step that writes is among the sources, where the act writes.
fn is_linked(act: &Act, operands: &[Operand], last: Option<u64>) -> bool
    ensures { IsTrue result ↔ (writes_of act.now ≡ true → HasSource last operands.now) }
{
    !writes(act) || has_source(operands, last)
}

/// Whether an act writes.
#[tactic(auto, unfolding(crate::specs::Acts::writes))]
fn writes(act: &Act) -> bool
    ensures { result ≡ writes_of act.now }
{
    match act {
        Act::Put | Act::Print(_) | Act::Puts(_) => true,
        _ => false,
    }
}

/// Whether all operands come from steps before the one of this number.
fn are_earlier(operands: &[Operand], number: u64) -> bool
    ensures { IsTrue result ↔ All (IsEarlier number) operands.now }
{
    operands.iter().all(|operand| is_earlier(operand, number))
}

/// Whether an operand does.
fn is_earlier(operand: &Operand, number: u64) -> bool
    ensures { IsTrue result ↔ IsEarlier number operand.now }
{
    match operand {
        Operand::Fixed(_) => true,
        Operand::From(k) => *k < number,
    }
}

/// Whether a step is among the sources, where there is one.
fn has_source(operands: &[Operand], source: Option<u64>) -> bool
    ensures { IsTrue result ↔ HasSource source operands.now }
{
    match source {
        Some(k) => operands.contains(&Operand::From(k)),
        None => true,
    }
}

/// The value of an operand.
fn operand(values: &[Datum], operand: &Operand) -> Datum
    ensures { result ≡ operand_value (slice_get values.now) operand.now }
{
    match operand {
        Operand::Fixed(value) => *value,
        Operand::From(k) => match values.get(*k as usize) {
            Some(value) => *value,
            None => Datum::Nothing,
        },
    }
}

/// Puts the values of operands in place of those that stand there.
fn read(values: &[Datum], operands: &[Operand], read: &mut Vec<Datum>) -> Result<(), NoMemory>
    ensures { OnOk result (read.new.items ≡ map (operand_value (slice_get values.now)) operands.now) }
{
    read.clear();
    for from in operands {
        read.push(operand(values, from))?;
    }
    Ok(())
}
