//! The report of a profile.
ghost use Rattle.std.specs.Prelude.{◌≡◌, IfOk, option_copied};
ghost use Rattle.k_dict_saved.specs.Profile.{IsSaved};
ghost use Rattle.k_plan.specs.Plan.{CanPlan};
ghost use Rattle.k_selfpar.specs.Contexts.{AreContexts};
ghost use Rattle.k_selfpar.specs.Rows.{AreRows};
ghost use Rattle.k_report_profile.specs.Report.{HasManyContexts, IsReport, asked, nodes_of_profile};

use k_dict_entries::Dict;
use k_dict_saved::Saved;
use k_num::{NoMemory, Seq};
use k_plan::{ContextFault, ContextList, contexts, plan, standard_limits};
use k_report::report;
use k_selfpar::{Row, rows};
use std::alloc::Global;

/// The dictionary of a profile, where it is asked for.
fn listed(saved: &Saved, with_dict: bool) -> Option<&Dict>
    ensures { option_copied result ≡ asked with_dict saved.now.dict }
{
    if with_dict { Some(&saved.dict) } else { None }
}

/// The report of a profile that has at most 65,536 contexts.
fn with_plan(
    alloc: Global,
    saved: &Saved,
    with_dict: bool,
    rows: &Seq<Row>,
    contexts: &ContextList,
) -> Result<Vec<u8>, NoMemory>
    requires saved { IsSaved saved.now }
    requires rows { AreRows (nodes_of_profile saved.now) rows.now }
    requires contexts { AreContexts saved.now.regions (nodes_of_profile saved.now) contexts.now }
    requires can_plan { CanPlan contexts.now }
    ensures { IfOk result (λ text. IsReport saved.now with_dict text.items) }
{
    let advice = plan(alloc, contexts, &standard_limits())?;
    report(
        alloc,
        &saved.regions,
        saved.exit,
        saved.ops,
        rows,
        listed(saved, with_dict),
        contexts,
        Some(&advice),
    )
}

/// The report of a profile that has more than 65,536 contexts, and so no plan.
fn without_plan(
    alloc: Global,
    saved: &Saved,
    with_dict: bool,
    rows: &Seq<Row>,
) -> Result<Vec<u8>, NoMemory>
    requires saved { IsSaved saved.now }
    requires rows { AreRows (nodes_of_profile saved.now) rows.now }
    requires many { HasManyContexts saved.now }
    ensures { IfOk result (λ text. IsReport saved.now with_dict text.items) }
{
    let contexts = Seq::new(alloc);
    report(
        alloc,
        &saved.regions,
        saved.exit,
        saved.ops,
        rows,
        listed(saved, with_dict),
        &contexts,
        None,
    )
}

/// The report of a profile: what main returned, how many operations were made, the rows, the entries of the dictionary where
/// they are asked for, and the plan of the loops to try first by the standard limits, or one line in its place where there are
/// more than 65,536 contexts.
pub fn report_of(alloc: Global, saved: &Saved, with_dict: bool) -> Result<Vec<u8>, NoMemory>
    requires { IsSaved saved.now }
    ensures { IfOk result (λ text. IsReport saved.now with_dict text.items) }
{
    let root = saved.dict.len() - 1;
    let rows = rows(alloc, &saved.dict, root)?;
    match contexts(alloc, &saved.dict, root, &saved.regions) {
        Ok(contexts) => with_plan(alloc, saved, with_dict, &rows, &contexts),
        Err(ContextFault::Wide) => without_plan(alloc, saved, with_dict, &rows),
        Err(ContextFault::Memory) => Err(NoMemory),
    }
}
