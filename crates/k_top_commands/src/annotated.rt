//! The answer of `annotate`: the source of a program with what its run came to. What the program writes goes nowhere.
ghost use Rattle.std.specs.Prelude.{ℕ, ◌≤◌, Bool, true, List, length, IfOk};
ghost use Rattle.k_regions.specs.Regions.{regions_of};
ghost use Rattle.k_report_profile.specs.Summed.{IsSummed};
ghost use Rattle.k_pragma_profile.specs.Annotated.{IsRunAnnotation};
ghost use Rattle.k_top_answers.specs.Answers.{AnswersAnnotated, ran_of};
ghost use Rattle.k_top_answers.specs.Steps.{run_of};
ghost use Rattle.k_top_answers.specs.Storage.{MayBeMarked};
ghost use Rattle.k_top_lemmas.specs.Parts.{FindsMarkable, IsFit, IsFresh, IsProfileOfRun, running_of};

use crate::carried::{loops_of, storage_of};
use k_carry::CarriedPairs;
use k_dict_entries::Dict;
use k_ending::End;
use k_hcpa::Profile;
use k_num::{NoMemory, Seq};
use k_pragma_profile::{run_annotation, unshared};
use k_regions::regions;
use k_shadow::Shadow;
use k_top_answers::Answer;
use k_top_lemmas::Ready;
use k_top_programs::{Nowhere, dict_of, run_program};
use std::alloc::Global;

/// The annotated source of a run from which main returned this number, by what is told of the run, and by what its loops carry.
fn annotation_text(
    alloc: Global,
    ready: &Ready,
    exit: i32,
    ops: u64,
    told: Option<Dict>,
    found: &CarriedPairs,
) -> Result<Vec<u8>, NoMemory>
    requires summed { (depth : ℕ) × IsSummed exit ops (regions_of ready.now.program.typed) told (ran_of (running_of ready.now) exit depth) }
    requires short { length ready.now.program.source ≤ 1048576 }
    ensures { IfOk result (λ text. (depth : ℕ) → IsSummed exit ops (regions_of ready.now.program.typed) told (ran_of (running_of ready.now) exit depth)
        → IsRunAnnotation ready.now.program.source ready.now.program.typed ready.now.program.marks (ran_of (running_of ready.now) exit depth) found.now.loops
        text.items) }
{
    let program = &ready.program;
    let regions = regions(alloc, &program.typed)?;
    let source = program.source.as_slice();
    run_annotation(
        alloc,
        source,
        &program.typed,
        &program.marks,
        exit,
        ops,
        regions,
        told,
        found,
    )
}

/// What is told of the loops of a program's run that share nothing and of whose instances each was looked at, of those that are told with what they carry.
fn strictly(
    alloc: Global,
    ready: &Ready,
    depth: u32,
    found: CarriedPairs,
) -> Result<CarriedPairs, NoMemory>
    requires { IsFit ready.now depth }
    ensures { IfOk result (λ marked. MayBeMarked true (running_of ready.now) depth found.loops marked.loops) }
{
    let told = storage_of(alloc, ready, depth)?;
    let deep = told.deep.as_slice();
    Ok(unshared(deep, told.pairs.loops.as_slice(), found))
}

/// The same where it is asked for, and else all that is told.
fn markable(
    alloc: Global,
    ready: &Ready,
    depth: u32,
    strict: bool,
    found: CarriedPairs,
) -> Result<CarriedPairs, NoMemory>
    requires { IsFit ready.now depth }
    ensures { IfOk result (λ marked. MayBeMarked strict (running_of ready.now) depth found.loops marked.loops) }
{
    if strict {
        strictly(alloc, ready, depth, found)
    } else {
        Ok(found)
    }
}

/// The answer of `annotate` on a program whose run came to this profile, and of whose loops these may be marked that carry nothing.
fn profile_answer(
    alloc: Global,
    ready: &Ready,
    profile: Profile,
    found: &CarriedPairs,
) -> Result<Answer, NoMemory>
    requires { (depth : ℕ) × (first : List ℕ) × IsFit ready.now depth × IsProfileOfRun (running_of ready.now) depth first profile }
    ensures { IfOk result (λ answer. (depth : ℕ) (first : List ℕ) (strict : Bool) → IsFit ready.now depth
        → IsProfileOfRun (running_of ready.now) depth first profile → FindsMarkable (running_of ready.now) depth strict found.now.loops
        → AnswersAnnotated ready.now.program.source depth strict answer (running_of ready.now) (run_of (running_of ready.now)).end) }
{
    let Profile {
        end,
        ops,
        written: _,
        rest,
        summary,
    } = profile;
    drop(rest);
    match end {
        End::Returned(exit) => {
            let told = dict_of(summary);
            let text = annotation_text(alloc, ready, exit, ops, told, found)?;
            Ok(Answer::done(text))
        }
        end => {
            drop(summary);
            Ok(Answer::ended(Seq::new(alloc), ready.steps, end))
        }
    }
}

/// The answer of `annotate` on a program that is ready to run, of whose instances those below a depth are tracked. The program is run twice: once for what
/// its loops carry, and once on the machine; and once more for what their turns share, where this is asked for.
pub fn annotate_answer<R: Shadow, P: Shadow>(
    alloc: Global,
    ready: &Ready,
    depth: u32,
    strict: bool,
    regs: R,
    pages: P,
) -> Result<Answer, NoMemory>
    requires fit { IsFit ready.now depth }
    requires registers { IsFresh 2097152 (R.content regs) }
    requires pages { IsFresh 4194304 (P.content pages) }
    ensures { IfOk result (λ answer.
        AnswersAnnotated ready.now.program.source depth strict answer (running_of ready.now) (run_of (running_of ready.now)).end) }
{
    let found = loops_of(alloc, ready, depth)?;
    let marked = markable(alloc, ready, depth, strict, found)?;
    let mut nowhere = Nowhere {};
    match run_program(alloc, ready, depth, regs, pages, &mut nowhere) {
        Ok(profile) => profile_answer(alloc, ready, profile, &marked),
        Err(_) => Err(NoMemory),
    }
}
