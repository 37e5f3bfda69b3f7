//! A program that is ready to run, and its run.
ghost use Rattle.std.specs.Prelude.{◌≡◌, IfOk};
ghost use Rattle.k_evaluation.specs.Runs.{listing_of};
ghost use Rattle.k_top_lemmas.specs.Parts.{CanRun, running_of};
ghost use Rattle.k_top_lemmas.specs.Phases.{MakesReady};
ghost use Rattle.k_top_answers.specs.Steps.{run_of};

use crate::input::input_of;
use crate::program::read_program;
use k_edge::{Files, Source};
use k_num::{NoMemory, Seq, Text};
use k_plain::{Listing, plain};
use k_top_answers::Failure;
use k_top_lemmas::Ready;
use std::alloc::Global;

/// The program of a file, ready to run: the program is read, and then the input.
pub fn make_ready<F: Files, S: Source>(
    alloc: Global,
    files: &mut F,
    input: &mut S,
    file: Text,
    latency: Option<Text>,
    steps: u64,
) -> Result<Ready, Failure>
    ensures ready { MakesReady result file latency steps
        (record { files = F.seen files.old; input = S.seen input.old }) (record { files = F.seen files.new; input = S.seen input.new }) }
    ensures can_run { IfOk result (λ r. CanRun r.program) }
    ensures steps { IfOk result (λ r. r.steps ≡ steps) }
{
    let program = read_program(alloc, files, file, latency)?;
    let input = input_of(alloc, &program.typed, input)?;
    Ok(Ready {
        program,
        input: Seq::from_vec(input),
        steps,
    })
}

/// The run of a program: its events, its output and its end.
pub fn listing(alloc: Global, ready: &Ready) -> Result<Listing, NoMemory>
    requires { CanRun ready.now.program }
    ensures { IfOk result (λ listing. listing ≡ listing_of (run_of (running_of ready.now))) }
{
    plain(
        alloc,
        &ready.program.typed,
        &ready.program.marks,
        &ready.program.latencies,
        ready.input.as_slice(),
        ready.steps,
    )
}
