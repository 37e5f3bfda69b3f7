//! The answer of `replay`: the output of a run, and how workers fire its operations.
ghost use Rattle.std.specs.Prelude.{◌≡◌, ◌≤◌, IfOk};
ghost use Rattle.k_top_answers.specs.Answers.{AnswersReplayed};
ghost use Rattle.k_top_answers.specs.Steps.{run_of};
ghost use Rattle.k_replay_run.specs.Replayed.{IsReplayOf};
ghost use Rattle.k_top_lemmas.specs.Parts.{CanRun, running_of};

use k_ending::End;
use k_num::{NoMemory, Seq};
use k_replay_run::{Replay, replay_run};
use k_top_answers::Answer;
use k_top_lemmas::Ready;
use std::alloc::Global;

/// The replay of the run of a program.
fn replay_of(alloc: Global, ready: &Ready, workers: u32, seed: u64) -> Result<Replay, NoMemory>
    requires fit { CanRun ready.now.program }
    requires some { 1 ≤ workers }
    requires few { workers ≤ 16 }
    ensures { IfOk result (λ replay. IsReplayOf (run_of (running_of ready.now)) workers seed replay) }
{
    let program = &ready.program;
    replay_run(
        alloc,
        &program.typed,
        &program.marks,
        &program.latencies,
        ready.input.as_slice(),
        ready.steps,
        workers,
        seed,
    )
}

/// The answer of `replay`: nothing is told of a run that did not return.
pub fn replay_answer(
    alloc: Global,
    ready: &Ready,
    workers: u32,
    seed: u64,
) -> Result<Answer, NoMemory>
    requires fit { CanRun ready.now.program }
    requires some { 1 ≤ workers }
    requires few { workers ≤ 16 }
    ensures { IfOk result (λ answer. AnswersReplayed workers seed answer (running_of ready.now) (run_of (running_of ready.now)).end) }
{
    let replay = replay_of(alloc, ready, workers, seed)?;
    let Replay { end, text } = replay;
    match end {
        End::Returned(_exit) => Ok(Answer::done(text.into_vec())),
        end => Ok(Answer::ended(Seq::new(alloc), ready.steps, end)),
    }
}
