//! The whole run.
ghost use Rattle.std.specs.Prelude.{◌≡◌, IfOk, OnOk};
ghost use Rattle.k_ending.specs.declared.ending.End.{End as EndValue};
ghost use Rattle.k_world.specs.declared.answer.Stop.TheVariants.{Ended};
ghost use Rattle.k_code.specs.Valid.{IsValid};
ghost use Rattle.k_replay_code.specs.Recorded.{IsRecordOf};
ghost use Rattle.k_replay_record.specs.Recorded.{IsRecorded};
ghost use Rattle.k_replay_record.specs.Records.{IsRecord};
ghost use Rattle.k_replay_record.specs.Serial.{serial_bytes};
ghost use Rattle.k_replay_code.specs.Running.{HasEnded, Stands, Stepped, setting_of};

use crate::advance::advance;
use crate::program::Program;
use crate::tape::Tape;
use k_code::Code;
use k_ending::End;
use k_hcpa_store::Store;
use k_num::NoMemory;
use k_replay_record::{Record, Recorder};
use k_world::Stop;
use std::alloc::Global;

/// The record of a run of valid code on an input, of at most `budget` operations.
pub fn record_code(
    alloc: Global,
    code: &Code,
    input: &[u8],
    budget: u64,
) -> Result<Record, NoMemory>
    requires { IsValid code.now }
    ensures { IfOk result (λ tape. IsRecordOf code.now input.now budget tape) }
{
    let program = Program {
        alloc,
        code,
        input,
        budget,
    };
    let tape = Tape {
        recorder: Recorder::new(alloc),
        reads: Vec::new(alloc),
    };
    match Store::start(alloc, code, input, budget) {
        Ok(store) => record_from(&program, store, tape),
        Err(stop) => stopped_at_once(tape, stop),
    }
}

/// The record of a run that has ended at once.
fn stopped_at_once(tape: Tape, stop: Stop) -> Result<Record, NoMemory>
    requires { IsRecorded tape.recorder }
    ensures { IfOk result (λ made. (end : EndValue) × (stop ≡ Ended end) × IsRecord made × (made.steps ≡ tape.recorder.steps) × (made.output ≡ serial_bytes tape.recorder.steps) × (made.end ≡ end)) }
{
    match stop {
        Stop::Ended(end) => Ok(finish(tape, end)),
        Stop::Memory => Err(NoMemory),
    }
}

/// The record of a run that begins.
fn record_from<'a>(program: &Program<'a>, store: Store<'a>, tape: Tape) -> Result<Record, NoMemory>
    requires code { IsValid program.now.code.now }
    requires stands { Stands (setting_of program.now) store tape.recorder }
    ensures { IfOk result (λ made. IsRecordOf program.now.code.now program.now.input.now program.now.budget made) }
{
    let mut store = store;
    let mut tape = tape;
    let end = run(program, &mut store, &mut tape)?;
    same_bytes(tape.recorder.output(), store.pending())?;
    Ok(finish(tape, end))
}

/// Two outputs are the same, or no memory is found.
fn same_bytes(written: &[u8], output: &[u8]) -> Result<(), NoMemory>
    ensures { OnOk result (written.now ≡ output.now) }
{
    if written == output {
        Ok(())
    } else {
        Err(NoMemory)
    }
}

/// Runs a program to its end.
fn run<'a>(program: &Program<'a>, store: &mut Store<'a>, tape: &mut Tape) -> Result<End, NoMemory>
    requires code { IsValid program.now.code.now }
    requires stands { Stands (setting_of program.now) store.old tape.old.recorder }
    ensures { IfOk result (λ end. HasEnded (setting_of program.now) store.new tape.new.recorder end) }
{
    loop {
        if let Some(end) = walk(program, store, tape)? {
            return Ok(end);
        }
    }
}

/// Does the instruction that is next.
fn walk<'a>(
    program: &Program<'a>,
    store: &mut Store<'a>,
    tape: &mut Tape,
) -> Result<Option<End>, NoMemory>
    requires code { IsValid program.now.code.now }
    requires stands { Stands (setting_of program.now) store.old tape.old.recorder }
    ensures { IfOk result (λ end. Stepped (setting_of program.now) store.old end store.new tape.new.recorder) }
{
    let instr = store.instruction();
    advance(program.alloc, store, tape, instr)
}

/// The record of the steps, with how the run ended.
fn finish(tape: Tape, end: End) -> Record
    requires { IsRecorded tape.recorder }
    ensures recorded { IsRecord result }
    ensures steps { result.steps ≡ tape.recorder.steps }
    ensures output { result.output ≡ serial_bytes tape.recorder.steps }
    ensures end { result.end ≡ end }
{
    let Tape { recorder, .. } = tape;
    recorder.finish(end)
}
