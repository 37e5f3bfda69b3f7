//! The answer of `page`: the page of a program's run. What the program writes goes nowhere.
ghost use Rattle.std.specs.Prelude.{ℕ, List, IfOk};
ghost use Rattle.k_regions.specs.Regions.{regions_of};
ghost use Rattle.k_report_profile.specs.Summed.{IsSummed};
ghost use Rattle.k_data_profile.specs.Pages.{IsRunPage};
ghost use Rattle.k_top_answers.specs.Answers.{AnswersPage, ran_of};
ghost use Rattle.k_top_answers.specs.Steps.{run_of};
ghost use Rattle.k_top_lemmas.specs.Parts.{IsFit, IsFresh, IsProfileOfRun, running_of};

use k_data_profile::run_page;
use k_dict_entries::Dict;
use k_ending::End;
use k_hcpa::Profile;
use k_num::{NoMemory, Seq};
use k_regions::regions;
use k_shadow::Shadow;
use k_top_answers::Answer;
use k_top_lemmas::Ready;
use k_top_programs::{Nowhere, dict_of, run_program};
use std::alloc::Global;

/// The page of a run from which main returned this number, by what is told of the run. The source is of a file of this name.
fn page_text(
    alloc: Global,
    name: &str,
    ready: &Ready,
    exit: i32,
    ops: u64,
    told: Option<Dict>,
    dict: bool,
) -> Result<Vec<u8>, NoMemory>
    requires { (depth : ℕ) × IsSummed exit ops (regions_of ready.now.program.typed) told (ran_of (running_of ready.now) exit depth) }
    ensures { IfOk result (λ text. (depth : ℕ) → IsSummed exit ops (regions_of ready.now.program.typed) told (ran_of (running_of ready.now) exit depth)
        → IsRunPage name.now ready.now.program.source (ran_of (running_of ready.now) exit depth) dict text.items) }
{
    let regions = regions(alloc, &ready.program.typed)?;
    let source = ready.program.source.as_slice();
    run_page(alloc, name, source, exit, ops, regions, told, dict)
}

/// The answer of `page` on a program whose run came to this profile.
fn profile_answer(
    alloc: Global,
    name: &str,
    ready: &Ready,
    profile: Profile,
    dict: bool,
) -> Result<Answer, NoMemory>
    requires { (depth : ℕ) × (first : List ℕ) × IsFit ready.now depth × IsProfileOfRun (running_of ready.now) depth first profile }
    ensures { IfOk result (λ answer. (depth : ℕ) (first : List ℕ) → IsFit ready.now depth → IsProfileOfRun (running_of ready.now) depth first profile
        → AnswersPage name.now ready.now.program.source depth dict answer (running_of ready.now) (run_of (running_of ready.now)).end) }
{
    let Profile {
        end,
        ops,
        written: _,
        rest,
        summary,
    } = profile;
    drop(rest);
    match end {
        End::Returned(exit) => {
            let told = dict_of(summary);
            let text = page_text(alloc, name, ready, exit, ops, told, dict)?;
            Ok(Answer::done(text))
        }
        end => {
            drop(summary);
            Ok(Answer::ended(Seq::new(alloc), ready.steps, end))
        }
    }
}

/// The answer of `page` on a program that is ready to run, whose source is of a file of this name. Instances below a depth are tracked, and the page lists
/// the dictionary where this is asked for.
pub fn page_answer<R: Shadow, P: Shadow>(
    alloc: Global,
    name: &str,
    ready: &Ready,
    depth: u32,
    dict: bool,
    regs: R,
    pages: P,
) -> Result<Answer, NoMemory>
    requires fit { IsFit ready.now depth }
    requires registers { IsFresh 2097152 (R.content regs) }
    requires pages { IsFresh 4194304 (P.content pages) }
    ensures { IfOk result (λ answer. AnswersPage name.now ready.now.program.source depth dict answer (running_of ready.now) (run_of (running_of ready.now)).end) }
{
    let mut nowhere = Nowhere {};
    match run_program(alloc, ready, depth, regs, pages, &mut nowhere) {
        Ok(profile) => profile_answer(alloc, name, ready, profile, dict),
        Err(_) => Err(NoMemory),
    }
}
