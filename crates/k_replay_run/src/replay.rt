//! The replay of a run: it is recorded, and workers fire its operations.
ghost use Rattle.std.specs.Prelude.{◌≡◌, ◌≤◌, IfOk};
ghost use Rattle.k_evaluation.specs.Runs.{run};
ghost use Rattle.k_lower.specs.Promises.{WhereAccepted};
ghost use Rattle.k_replay_record.specs.Records.{IsRecord};
ghost use Rattle.k_replay_run.specs.Replayed.{IsReplayOf, ReplaysRecord, TextOfRecord};

use crate::record::record_run;
use k_ending::End;
use k_marks_meaning::Marks;
use k_num::{NoMemory, Seq};
use k_optab::Latencies;
use k_replay::{Core, Record, run_rounds};
use k_replay_text::replay_text;
use k_types_meaning::TUnit;
use std::alloc::Global;

/// How a run that was replayed ended, and what is written of it: nothing unless main returned.
#[derive(Drop)]
pub struct Replay {
    pub end: End,
    pub text: Seq<u8>,
}

/// The text of a record whose operations so many workers have fired in rounds.
fn fired_text(
    alloc: Global,
    tape: &Record,
    exit: i32,
    workers: u32,
    seed: u64,
) -> Result<Seq<u8>, NoMemory>
    requires tape { IsRecord tape.now }
    requires some { 1 ≤ workers }
    requires few { workers ≤ 16 }
    ensures { IfOk result (λ text. TextOfRecord seed workers tape.now exit text) }
{
    let mut core = Core::new(alloc, tape, workers)?;
    let schedule = run_rounds(alloc, &mut core, workers, seed)?;
    let ops = tape.steps.len() as u64;
    let text = replay_text(alloc, core.output(), ops, exit, &schedule)?;
    Ok(Seq::from_vec(text))
}

/// The replay of a record by so many workers: nothing is fired unless main returned.
fn replayed(alloc: Global, tape: &Record, workers: u32, seed: u64) -> Result<Replay, NoMemory>
    requires tape { IsRecord tape.now }
    requires some { 1 ≤ workers }
    requires few { workers ≤ 16 }
    ensures { IfOk result (λ replay. ReplaysRecord seed workers tape.now replay) }
{
    match tape.end {
        End::Returned(exit) => {
            let text = fired_text(alloc, tape, exit, workers, seed)?;
            let end = tape.end;
            Ok(Replay { end, text })
        }
        end => Ok(Replay {
            end,
            text: Seq::new(alloc),
        }),
    }
}

/// Replays the run of a typed source with its marks, on an input and of at most `budget` operations: so many workers fire its operations in rounds, each
/// of which begins with the worker that the next draw from the seed tells.
pub fn replay_run(
    alloc: Global,
    unit: &TUnit,
    marks: &Marks,
    latencies: &Latencies,
    input: &[u8],
    budget: u64,
    workers: u32,
    seed: u64,
) -> Result<Replay, NoMemory>
    requires some { 1 ≤ workers }
    requires few { workers ≤ 16 }
    ensures { IfOk result (λ replay. WhereAccepted (record { unit = unit.now; marks = marks.now; latencies = latencies.now }) (IsReplayOf (run (record { unit = unit.now; marks = marks.now; latencies = latencies.now }) input.now budget) workers seed replay)) }
{
    let tape = record_run(alloc, unit, marks, latencies, input, budget)?;
    replayed(alloc, &tape, workers, seed)
}
