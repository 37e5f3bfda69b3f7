//! The answer of `demo`: the summary of the run of a made program.
ghost use Rattle.std.specs.Prelude.{ℕ, ◌≤◌, List, IfOk};
ghost use Rattle.k_regions.specs.Regions.{regions_of};
ghost use Rattle.k_report_profile.specs.Summed.{IsSummed};
ghost use Rattle.k_words.specs.Setting.{standard_depth};
ghost use Rattle.k_top_answers.specs.Answers.{AnswersMade, ran_of};
ghost use Rattle.k_top_lemmas.specs.Parts.{IsFit, IsFresh, IsProfileOfRun, running_of};
ghost use Rattle.k_top_lemmas.specs.Phases.{MakesDemo};
ghost use Rattle.k_top_answers.specs.Steps.{run_of};
ghost use Rattle.k_top_answers.specs.Texts.{IsSummary};

use crate::summary::{head, lines_if_there};
use k_dict_entries::Dict;
use k_ending::End;
use k_gen::generate;
use k_hcpa::Profile;
use k_num::{NoMemory, Seq};
use k_optab::standard;
use k_regions::regions;
use k_report_profile::summary_report;
use k_shadow::Shadow;
use k_top_answers::{Answer, Failure};
use k_top_lemmas::Ready;
use k_top_programs::{Nowhere, accept, dict_of, run_program};
use k_words::{STANDARD_DEPTH, STANDARD_STEPS};
use std::alloc::Global;

/// The summary of a run from which main returned this number, by what is told of the run.
fn summary(
    alloc: Global,
    number: u64,
    loops: u32,
    ready: &Ready,
    exit: i32,
    ops: u64,
    written: u64,
    told: Option<Dict>,
) -> Result<Vec<u8>, NoMemory>
    requires { IsSummed exit ops (regions_of ready.now.program.typed) told (ran_of (running_of ready.now) exit standard_depth) }
    ensures { IfOk result (λ text. IsSummary number loops written (ran_of (running_of ready.now) exit standard_depth) text.items) }
{
    let regions = regions(alloc, &ready.program.typed)?;
    let profiled = summary_report(alloc, exit, ops, regions, told, false)?;
    let mut text = head(alloc, number, loops, written, exit, ops)?;
    let lines = lines_if_there(alloc, &profiled.saved)?;
    text.push_str(lines.as_str())?;
    let bytes = Vec::from_slice(alloc, text.as_bytes())?;
    Ok(bytes)
}

/// The answer of `demo` on a made program whose run came to this profile.
fn profile_answer(
    alloc: Global,
    number: u64,
    loops: u32,
    ready: &Ready,
    profile: Profile,
) -> Result<Answer, NoMemory>
    requires fit { IsFit ready.now standard_depth }
    requires profile { (put : List ℕ) × IsProfileOfRun (running_of ready.now) standard_depth put profile }
    ensures { IfOk result (λ answer. AnswersMade number loops answer (running_of ready.now) (run_of (running_of ready.now)).end) }
{
    let Profile {
        end,
        ops,
        written,
        rest,
        summary: told,
    } = profile;
    drop(rest);
    match end {
        End::Returned(exit) => {
            let text = summary(
                alloc,
                number,
                loops,
                ready,
                exit,
                ops,
                written,
                dict_of(told),
            )?;
            Ok(Answer::done(text))
        }
        end => {
            drop(told);
            Ok(Answer::ended(Seq::new(alloc), ready.steps, end))
        }
    }
}

/// The answer of `demo` on a made program that is ready to run. What the program writes goes nowhere.
fn made_answer<R: Shadow, P: Shadow>(
    alloc: Global,
    number: u64,
    loops: u32,
    ready: &Ready,
    regs: R,
    pages: P,
) -> Result<Answer, NoMemory>
    requires fit { IsFit ready.now standard_depth }
    requires registers { IsFresh 2097152 (R.content regs) }
    requires pages { IsFresh 4194304 (P.content pages) }
    ensures { IfOk result (λ answer. AnswersMade number loops answer (running_of ready.now) (run_of (running_of ready.now)).end) }
{
    let mut nowhere = Nowhere {};
    match run_program(alloc, ready, STANDARD_DEPTH, regs, pages, &mut nowhere) {
        Ok(profile) => profile_answer(alloc, number, loops, ready, profile),
        Err(_) => Err(NoMemory),
    }
}

/// The answer of `demo`: a program of so many loops is made from a number, run as `run` does without options, and summed up.
pub fn demo_answer<R: Shadow, P: Shadow>(
    alloc: Global,
    number: u64,
    loops: u32,
    regs: R,
    pages: P,
) -> Result<Answer, Failure>
    requires some { 1 ≤ loops }
    requires few { loops ≤ 2000 }
    requires registers { IsFresh 2097152 (R.content regs) }
    requires pages { IsFresh 4194304 (P.content pages) }
    ensures { MakesDemo result number loops }
{
    let source = generate(alloc, number, loops)?;
    let program = accept(alloc, source.as_slice(), standard())?;
    let ready = Ready {
        program,
        input: Seq::new(alloc),
        steps: STANDARD_STEPS,
    };
    let answer = made_answer(alloc, number, loops, &ready, regs, pages)?;
    Ok(answer)
}
