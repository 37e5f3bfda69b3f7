//! The summary of the run of a made program.
ghost use Rattle.std.specs.Prelude.{◌≡◌, ◌++◌, IfOk, string_bytes};
ghost use Rattle.std.specs.Option.{ForSome};
ghost use Rattle.k_plan.specs.Plan.{CanPlan};
ghost use Rattle.k_report_profile.specs.Report.{nodes_of_profile};
ghost use Rattle.k_dict_saved.specs.Profile.{IsSaved};
ghost use Rattle.k_top_lemmas.specs.Parts.{AreLinesIfThere, AreLinesOf, IsPlanLine, IsPlanText, IsTreeText};
ghost use Rattle.k_top_answers.specs.Texts.{demo_line, picks_line, root_lines, run_lines};

use k_dict_saved::Saved;
use k_num::NoMemory;
use k_plan::{Context, ContextFault, ContextList, contexts, plan, standard_limits};
use k_report::{large_line, wide_line};
use k_selfpar::{root_work, rows};
use std::alloc::Global;

/// The lines on the made program and its run: how many bytes it wrote, what main returned, how many operations it made.
pub(crate) fn head(
    alloc: Global,
    number: u64,
    loops: u32,
    bytes: u64,
    exit: i32,
    ops: u64,
) -> Result<String, NoMemory>
    ensures { IfOk result (λ text. string_bytes text ≡ demo_line number loops ++ run_lines bytes exit ops) }
{
    Ok(format!(in alloc; "demo {number} {loops}\nbytes {bytes}\nexit {exit}\nops {ops}\n")?)
}

/// The lines on a tree whose root has this work and this path, and which has so many rows.
fn root_text(alloc: Global, work: u64, path: u64, rows: usize) -> Result<String, NoMemory>
    ensures { IfOk result (λ text. string_bytes text ≡ root_lines work path rows) }
{
    Ok(format!(in alloc; "work {work}\npath {path}\nrows {rows}\n")?)
}

/// The lines on the tree of a profile: work and path of its root, and how many rows it has.
fn tree_text(alloc: Global, saved: &Saved) -> Result<String, NoMemory>
    requires { IsSaved saved.now }
    ensures { IfOk result (λ text. IsTreeText (nodes_of_profile saved.now) (string_bytes text)) }
{
    let at = saved.dict.len() - 1;
    let count = rows(alloc, &saved.dict, at)?.len();
    let root = saved.dict.entry(at);
    root_text(alloc, root.work, root.path, count)
}

/// The line on a plan that picks so many loops, which save so much of this work.
fn picks_text(alloc: Global, picks: usize, total: u64, work: u64) -> Result<String, NoMemory>
    ensures { IfOk result (λ text. string_bytes text ≡ picks_line picks total work) }
{
    Ok(format!(in alloc; "plan {picks} saves {total} of {work}\n")?)
}

/// The line on the plan of these contexts.
fn with_plan(alloc: Global, contexts: &ContextList) -> Result<String, NoMemory>
    requires { CanPlan contexts.now }
    ensures { IfOk result (λ text. IsPlanLine contexts.now (string_bytes text)) }
{
    let advice = plan(alloc, contexts, &standard_limits())?;
    let work = root_work(contexts.as_slice());
    picks_text(alloc, advice.picks.len(), advice.total, work)
}

/// The line on the plan of a profile, or that it has too many contexts for one.
fn plan_text(alloc: Global, saved: &Saved) -> Result<String, NoMemory>
    requires { IsSaved saved.now }
    ensures { IfOk result (λ text. IsPlanText saved.now (string_bytes text)) }
{
    let root = saved.dict.len() - 1;
    match contexts(alloc, &saved.dict, root, &saved.regions) {
        Ok(contexts) => with_plan(alloc, &contexts),
        Err(ContextFault::Wide) => Ok(String::from_str(alloc, wide_line())?),
        Err(ContextFault::Memory) => Err(NoMemory),
    }
}

/// The lines on a profile.
fn profile_lines(alloc: Global, saved: &Saved) -> Result<String, NoMemory>
    requires { IsSaved saved.now }
    ensures { IfOk result (λ text. AreLinesOf saved.now (string_bytes text)) }
{
    let mut text = tree_text(alloc, saved)?;
    let plan = plan_text(alloc, saved)?;
    text.push_str(plan.as_str())?;
    Ok(text)
}

/// The lines on a profile, or that there is none.
pub(crate) fn lines_if_there(alloc: Global, saved: &Option<Saved>) -> Result<String, NoMemory>
    requires { ForSome saved.now IsSaved }
    ensures { IfOk result (λ text. AreLinesIfThere saved.now (string_bytes text)) }
{
    match saved {
        Some(saved) => profile_lines(alloc, saved),
        None => {
            let text = String::from_str(alloc, large_line())?;
            Ok(text)
        }
    }
}
