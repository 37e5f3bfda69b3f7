//! The answer of `carried`: what the loops of a run carry from turn to turn, and what their turns share.
ghost use Rattle.std.specs.Prelude.{true, ◌≡◌, ◌++◌, IfOk};
ghost use Rattle.k_carry_storage_pairs.specs.Deep.{AreDeep};
ghost use Rattle.k_top_answers.specs.Answers.{AnswersCarried};
ghost use Rattle.k_top_answers.specs.Steps.{run_of};
ghost use Rattle.k_top_answers.specs.Storage.{HasStorage, WritesStorage};
ghost use Rattle.k_top_lemmas.specs.Parts.{IsFit, TellsOfLoops, WritesLoops, running_of};

use k_carry::{CarriedPairs, LoopPairs, carried};
use k_carry_storage::{StorageTold, storage_told};
use k_carry_storage_text::storage_text;
use k_carry_text::carried_text;
use k_ending::End;
use k_lower::lower;
use k_num::{NoMemory, Seq};
use k_regions::regions;
use k_top_answers::Answer;
use k_top_lemmas::Ready;
use std::alloc::Global;

/// How the run of a program ends, and what its loops carry, of whose instances those below a depth are tracked.
pub(crate) fn loops_of(alloc: Global, ready: &Ready, depth: u32) -> Result<CarriedPairs, NoMemory>
    requires { IsFit ready.now depth }
    ensures { IfOk result (λ found. TellsOfLoops (running_of ready.now) depth found) }
{
    let program = &ready.program;
    let code = lower(alloc, &program.typed, &program.marks, &program.latencies)?;
    carried(alloc, &code, ready.input.as_slice(), ready.steps, depth)
}

/// What the turns of the loops of a program's run share, of whose instances those below a depth are tracked, and which regions had a deeper one.
pub(crate) fn storage_of(alloc: Global, ready: &Ready, depth: u32) -> Result<StorageTold, NoMemory>
    requires { IsFit ready.now depth }
    ensures storage { IfOk result (λ told. HasStorage (running_of ready.now) depth told.pairs.loops) }
    ensures deep { IfOk result (λ told. AreDeep depth (run_of (running_of ready.now)).events told.deep) }
{
    let program = &ready.program;
    let code = lower(alloc, &program.typed, &program.marks, &program.latencies)?;
    storage_told(alloc, &code, ready.input.as_slice(), ready.steps, depth)
}

/// The text on what the turns of the loops of a program's run share.
fn shared_text(alloc: Global, ready: &Ready, depth: u32) -> Result<Vec<u8>, NoMemory>
    requires { IsFit ready.now depth }
    ensures { IfOk result (λ text. WritesStorage true (running_of ready.now) depth text.items) }
{
    let told = storage_of(alloc, ready, depth)?;
    let regions = regions(alloc, &ready.program.typed)?;
    storage_text(alloc, regions.as_slice(), told.pairs.loops.as_slice())
}

/// The same where it is asked for, and else no text.
fn shared_if(alloc: Global, ready: &Ready, depth: u32, storage: bool) -> Result<Vec<u8>, NoMemory>
    requires { IsFit ready.now depth }
    ensures { IfOk result (λ text. WritesStorage storage (running_of ready.now) depth text.items) }
{
    if storage {
        shared_text(alloc, ready, depth)
    } else {
        Ok(Vec::new(alloc))
    }
}

/// A text with another one behind it.
fn with_text(text: Vec<u8>, more: &[u8]) -> Result<Vec<u8>, NoMemory>
    ensures { IfOk result (λ all. all.items ≡ text.items ++ more.now) }
{
    let mut text = text;
    text.extend_from_slice(more)?;
    Ok(text)
}

/// The text of `carried` where main returned, and the loops of the run carry this.
fn loops_text(
    alloc: Global,
    ready: &Ready,
    depth: u32,
    storage: bool,
    loops: &[LoopPairs],
) -> Result<Vec<u8>, NoMemory>
    requires { IsFit ready.now depth }
    ensures { IfOk result (λ text. WritesLoops (running_of ready.now) depth storage loops.now text.items) }
{
    let regions = regions(alloc, &ready.program.typed)?;
    let text = carried_text(alloc, regions.as_slice(), loops)?;
    let shared = shared_if(alloc, ready, depth, storage)?;
    with_text(text, shared.as_slice())
}

/// The answer of `carried`, where instances below a depth are tracked: nothing is told of the loops of a run that did not return.
pub fn carried_answer(
    alloc: Global,
    ready: &Ready,
    depth: u32,
    storage: bool,
) -> Result<Answer, NoMemory>
    requires { IsFit ready.now depth }
    ensures { IfOk result (λ answer. AnswersCarried depth storage answer (running_of ready.now) (run_of (running_of ready.now)).end) }
{
    let found = loops_of(alloc, ready, depth)?;
    let CarriedPairs { end, loops } = found;
    match end {
        End::Returned(_exit) => {
            let text = loops_text(alloc, ready, depth, storage, loops.as_slice())?;
            Ok(Answer::done(text))
        }
        end => Ok(Answer::ended(Seq::new(alloc), ready.steps, end)),
    }
}
