//! The page of a profile, and that of a run.
ghost use Rattle.std.specs.Prelude.{◌≡◌, IfOk};
ghost use Rattle.k_dict_saved.specs.Profile.{IsSaved};
ghost use Rattle.k_plan.specs.Plan.{CanPlan};
ghost use Rattle.k_selfpar.specs.Contexts.{AreContexts};
ghost use Rattle.k_selfpar.specs.Rows.{AreRows};
ghost use Rattle.k_report_profile.specs.Report.{HasManyContexts, nodes_of_profile};
ghost use Rattle.k_report_profile.specs.RunReport.{Ran};
ghost use Rattle.k_report_profile.specs.Summed.{IsSummed};
ghost use Rattle.k_data_profile.specs.Pages.{IsPage, IsRunPage, path_of, work_of};

use crate::shown::listed;
use k_dict_entries::Dict;
use k_dict_saved::Saved;
use k_num::{NoMemory, Seq};
use k_optab::Region;
use k_page::{large_page, page};
use k_plan::{ContextFault, ContextList, contexts, plan, standard_limits};
use k_selfpar::{Row, rows};
use std::alloc::Global;

/// The page of a profile of this work and path that has at most 65,536 contexts.
fn with_plan(
    alloc: Global,
    saved: &Saved,
    name: &str,
    source: &[u8],
    work: u64,
    path: u64,
    with_dict: bool,
    rows: &Seq<Row>,
    contexts: &ContextList,
) -> Result<Vec<u8>, NoMemory>
    requires saved { IsSaved saved.now }
    requires work { work_of (nodes_of_profile saved.now) ≡ work }
    requires path { path_of (nodes_of_profile saved.now) ≡ path }
    requires rows { AreRows (nodes_of_profile saved.now) rows.now }
    requires contexts { AreContexts saved.now.regions (nodes_of_profile saved.now) contexts.now }
    requires can_plan { CanPlan contexts.now }
    ensures { IfOk result (λ text. IsPage name.now source.now saved.now with_dict text.items) }
{
    let advice = plan(alloc, contexts, &standard_limits())?;
    page(
        alloc,
        name,
        source,
        saved.exit,
        saved.ops,
        work,
        path,
        &saved.regions,
        rows,
        listed(saved, with_dict),
        contexts,
        Some(&advice),
    )
}

/// The page of a profile of this work and path that has more than 65,536 contexts: it shows none of them, and no plan.
fn without_plan(
    alloc: Global,
    saved: &Saved,
    name: &str,
    source: &[u8],
    work: u64,
    path: u64,
    with_dict: bool,
    rows: &Seq<Row>,
) -> Result<Vec<u8>, NoMemory>
    requires saved { IsSaved saved.now }
    requires work { work_of (nodes_of_profile saved.now) ≡ work }
    requires path { path_of (nodes_of_profile saved.now) ≡ path }
    requires rows { AreRows (nodes_of_profile saved.now) rows.now }
    requires many { HasManyContexts saved.now }
    ensures { IfOk result (λ text. IsPage name.now source.now saved.now with_dict text.items) }
{
    let contexts = Seq::new(alloc);
    page(
        alloc,
        name,
        source,
        saved.exit,
        saved.ops,
        work,
        path,
        &saved.regions,
        rows,
        listed(saved, with_dict),
        &contexts,
        None,
    )
}

/// The page of a profile beside its source, in a file of this name.
fn page_of(
    alloc: Global,
    saved: &Saved,
    name: &str,
    source: &[u8],
    with_dict: bool,
) -> Result<Vec<u8>, NoMemory>
    requires { IsSaved saved.now }
    ensures { IfOk result (λ text. IsPage name.now source.now saved.now with_dict text.items) }
{
    let root = saved.dict.len() - 1;
    let whole = saved.dict.entry(root);
    let (work, path) = (whole.work, whole.path);
    let rows = rows(alloc, &saved.dict, root)?;
    match contexts(alloc, &saved.dict, root, &saved.regions) {
        Ok(contexts) => with_plan(
            alloc, saved, name, source, work, path, with_dict, &rows, &contexts,
        ),
        Err(ContextFault::Wide) => {
            without_plan(alloc, saved, name, source, work, path, with_dict, &rows)
        }
        Err(ContextFault::Memory) => Err(NoMemory),
    }
}

/// The page of a run from which main returned, beside its source in a file of this name, by what main returned, how many operations were made, the regions,
/// and the dictionary of the tree, if it is within its limits. The page lists the dictionary where this is asked for. Where there are more than 65,536
/// contexts, it shows none of them and no plan; where the dictionary is over its limits, it says so, and has neither rows nor source.
pub fn run_page(
    alloc: Global,
    name: &str,
    source: &[u8],
    exit: i32,
    ops: u64,
    regions: Seq<Region>,
    dict: Option<Dict>,
    with_dict: bool,
) -> Result<Vec<u8>, NoMemory>
    requires { (ran : Ran) × IsSummed exit ops regions dict ran }
    ensures { IfOk result (λ text. (ran : Ran) → IsSummed exit ops regions dict ran → IsRunPage name.now source.now ran with_dict text.items) }
{
    match dict {
        Some(dict) => {
            let saved = Saved {
                exit,
                ops,
                regions,
                dict,
            };
            page_of(alloc, &saved, name, source, with_dict)
        }
        None => large_page(alloc, name, exit, ops),
    }
}
