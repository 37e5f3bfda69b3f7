//! The record as it grows. Each operation's step is put behind the others where its value, as the steps give it, is the value that the operation gave.
//! It always is, and where it were not no memory would be found: so what is recorded is right with no proof about what registers and memory hold.
ghost use Rattle.std.specs.Prelude.{◌≡◌, [], ◌∷◌, None, OnOk};
ghost use Rattle.k_replay_code.specs.Recorded.{recorded_value as recorded_meant};
ghost use Rattle.k_replay_code.specs.Steps.{Adds, called_by, held_alone as alone_meant, moved_of};
ghost use Rattle.k_replay_recording.specs.Steps.{datum_of as datum_meant};
ghost use Rattle.k_replay_record.specs.Recorded.{IsRecorded};
ghost use Rattle.k_world.specs.Answers.{act_of};

use k_num::NoMemory;
use k_replay_record::{Datum, Recorder};
use k_replay_recording::step;
use k_world::{ActRef, Done, Held, Read, Value};
use std::alloc::Global;

/// The steps so far, and what the operands of the newest instruction read.
#[derive(Drop)]
pub struct Tape {
    pub recorder: Recorder,
    pub reads: Vec<Read>,
}

/// The value that a record has of an operation.
#[tactic(auto, unfolding(crate::specs::Recorded::recorded_value))]
fn recorded_value(act: ActRef<'_>, value: Value) -> Datum
    ensures { result ≡ recorded_meant (act_of act.entry) value }
{
    match act {
        ActRef::Call => Datum::Nothing,
        _ => datum_of(value),
    }
}

/// A value, as a record has it.
fn datum_of(value: Value) -> Datum
    ensures { result ≡ datum_meant value }
{
    match value {
        Value::Number(number) => Datum::Number(number),
        Value::Pointer(pointer) => Datum::At(pointer),
    }
}

/// An operation was made with the operands that were read: its step stands behind the others.
pub fn note(alloc: Global, tape: &mut Tape, act: ActRef<'_>, done: &Done) -> Result<(), NoMemory>
    requires { IsRecorded tape.old.recorder }
    ensures { OnOk result (Adds (record { what = act_of act.entry; reads = tape.old.reads.items; hidden = done.now.hidden; control = done.now.control; value = done.now.held.value } ∷ []) tape.old.recorder tape.new.recorder) }
{
    let value = recorded_value(act, done.held.value);
    let made = step(alloc, act, &tape.reads, done)?;
    let Ok(given) = tape.recorder.push(made) else {
        return Err(NoMemory);
    };
    same(given, value)?;
    Ok(())
}

/// Two values are the same, or no memory is found.
fn same(given: Datum, value: Datum) -> Result<(), NoMemory>
    ensures { OnOk result (given ≡ value) }
{
    if given == value {
        Ok(())
    } else {
        Err(NoMemory)
    }
}

/// A call was made with the operands that were read.
pub fn note_call(alloc: Global, tape: &mut Tape, control: Option<u64>) -> Result<(), NoMemory>
    requires { IsRecorded tape.old.recorder }
    ensures { OnOk result (Adds (called_by tape.old.reads.items control ∷ []) tape.old.recorder tape.new.recorder) }
{
    note(
        alloc,
        tape,
        ActRef::Call,
        &done_with(Value::Number(0), control),
    )?;
    Ok(())
}

/// What was read is moved, if it is there.
pub fn note_move(alloc: Global, tape: &mut Tape, control: Option<u64>) -> Result<(), NoMemory>
    requires { IsRecorded tape.old.recorder }
    ensures { OnOk result (Adds (moved_of tape.old.reads.items control) tape.old.recorder tape.new.recorder) }
{
    match held_alone(&tape.reads) {
        Some(held) => {
            note(alloc, tape, ActRef::Move, &done_with(held.value, control))?;
            Ok(())
        }
        None => Ok(()),
    }
}

/// What the only operand read, if there is one.
fn held_alone(reads: &[Read]) -> Option<Held>
    ensures { result ≡ alone_meant reads.now }
{
    match reads {
        [read] => read.slot,
        _ => None,
    }
}

/// An operation gave this, without a hidden operand.
fn done_with(value: Value, control: Option<u64>) -> Done
    ensures value { result.held.value ≡ value }
    ensures hidden { result.hidden ≡ None }
    ensures control { result.control ≡ control }
{
    Done {
        held: Held {
            value,
            source: None,
        },
        hidden: None,
        control,
        element: None,
    }
}
