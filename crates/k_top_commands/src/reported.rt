//! The answer of `run`: a program's output, which is put while the program runs, the report of its profile, and the profile where it is to be saved.
ghost use Rattle.std.specs.Prelude.{ℕ, ◌≡◌, List, IfOk};
ghost use Rattle.k_regions.specs.Regions.{regions_of};
ghost use Rattle.k_report_profile.specs.Summed.{IsSummed};
ghost use Rattle.k_top_answers.specs.Answers.{AnswersRun, IsReported, ran_of, saved_file};
ghost use Rattle.k_top_lemmas.specs.Parts.{IsFit, IsFresh, IsProfileOfRun, running_of};
ghost use Rattle.k_top_lemmas.specs.Streams.{IsSplit, StreamsRun, behind};
ghost use Rattle.k_top_answers.specs.Steps.{run_of};

use k_dict_entries::Dict;
use k_dict_saved::{Saved, write};
use k_edge::Sink;
use k_ending::End;
use k_hcpa::Profile;
use k_num::{NoMemory, Seq, Text};
use k_regions::regions;
use k_replay_text::with_report;
use k_report_profile::summary_report;
use k_shadow::Shadow;
use k_top_answers::{Answer, Failure, SavedFile};
use k_top_lemmas::Ready;
use k_top_programs::{dict_of, run_program};
use std::alloc::Global;

/// The file that is saved, where one is asked for and there is a profile.
fn saved_file(
    alloc: Global,
    save: Option<Text>,
    profile: &Option<Saved>,
) -> Result<Option<SavedFile>, NoMemory>
    ensures { IfOk result (λ saved. saved ≡ saved_file save profile.now) }
{
    let Some(name) = save else {
        return Ok(None);
    };
    match profile {
        None => Ok(None),
        Some(profile) => {
            let bytes = Seq::from_vec(write(alloc, profile)?);
            Ok(Some(SavedFile { name, bytes }))
        }
    }
}

/// The rest of the answer where main returned this number, by what is told of the run and by the output that was not put yet.
fn report_answer(
    alloc: Global,
    ready: &Ready,
    exit: i32,
    ops: u64,
    told: Option<Dict>,
    rest: &[u8],
    dict: bool,
    save: Option<Text>,
) -> Result<Answer, NoMemory>
    requires { (depth : ℕ) × IsSummed exit ops (regions_of ready.now.program.typed) told (ran_of (running_of ready.now) exit depth) }
    ensures { IfOk result (λ answer. (depth : ℕ) (first : List ℕ) → IsSummed exit ops (regions_of ready.now.program.typed) told (ran_of (running_of ready.now) exit depth)
        → IsSplit first rest.now (run_of (running_of ready.now)).output → IsReported (running_of ready.now) exit depth dict save (behind first answer)) }
{
    let regions = regions(alloc, &ready.program.typed)?;
    let profiled = summary_report(alloc, exit, ops, regions, told, dict)?;
    let out = with_report(alloc, rest, profiled.report.as_slice())?;
    let saved = saved_file(alloc, save, &profiled.saved)?;
    Ok(Answer {
        out: Seq::from_vec(out),
        failure: None,
        more: None,
        saved,
    })
}

/// The rest of the answer of `run` behind a run that came to this profile.
fn profile_answer(
    alloc: Global,
    ready: &Ready,
    profile: Profile,
    dict: bool,
    save: Option<Text>,
) -> Result<Answer, NoMemory>
    requires { (depth : ℕ) × (first : List ℕ) × IsFit ready.now depth × IsProfileOfRun (running_of ready.now) depth first profile }
    ensures { IfOk result (λ answer. (depth : ℕ) (first : List ℕ) → IsFit ready.now depth → IsProfileOfRun (running_of ready.now) depth first profile
        → AnswersRun depth dict save (behind first answer) (running_of ready.now) (run_of (running_of ready.now)).end) }
{
    let Profile {
        end,
        ops,
        written: _,
        rest,
        summary,
    } = profile;
    match end {
        End::Returned(exit) => {
            let told = dict_of(summary);
            report_answer(alloc, ready, exit, ops, told, rest.as_slice(), dict, save)
        }
        end => {
            drop(summary);
            Ok(Answer::ended(rest, ready.steps, end))
        }
    }
}

/// The rest of the answer of `run`, whose output is put while the program runs: what was not put yet, and the report behind it. Instances below a depth are
/// tracked, the report has the lines of the dictionary where they are asked for, and the profile is saved where a file is named.
pub fn run_answer<K: Sink, R: Shadow, P: Shadow>(
    alloc: Global,
    ready: &Ready,
    depth: u32,
    dict: bool,
    save: Option<Text>,
    out: &mut K,
    regs: R,
    pages: P,
) -> Result<Answer, Failure>
    requires fit { IsFit ready.now depth }
    requires registers { IsFresh 2097152 (R.content regs) }
    requires pages { IsFresh 4194304 (P.content pages) }
    ensures { StreamsRun result depth dict save (running_of ready.now) (K.seen out.old) (K.seen out.new) }
{
    let profile = run_program(alloc, ready, depth, regs, pages, out)?;
    let answer = profile_answer(alloc, ready, profile, dict, save)?;
    Ok(answer)
}
