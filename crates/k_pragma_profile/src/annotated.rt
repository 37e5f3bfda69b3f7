//! The annotated source of a run.
ghost use Rattle.std.specs.Prelude.{◌≡◌, ◌≤◌, ◌++◌, length, slice_get, option_copied, IfOk, OnOk, Some};
ghost use Rattle.k_dict_saved.specs.Profile.{IsSaved};
ghost use Rattle.k_plan.specs.Plan.{CanPlan};
ghost use Rattle.k_plan.specs.declared.advice.Advice.{Advice};
ghost use Rattle.k_report_profile.specs.Report.{IsPlanned, nodes_of_profile};
ghost use Rattle.k_report_profile.specs.RunReport.{Ran};
ghost use Rattle.k_report_profile.specs.Summed.{IsSummed};
ghost use Rattle.k_pragma_profile.specs.Annotated.{ArePicked, IsAnnotationOf, IsRunAnnotation, picked_by, picked_of};

use k_dict_entries::Dict;
use k_dict_saved::Saved;
use k_marks_meaning::Marks;
use k_num::{NoMemory, Seq};
use k_optab::Region;
use k_plan::{Context, ContextFault, ContextList, Pick, contexts, plan, standard_limits};
use k_pragma::{CarriedPairs, annotate};
use k_selfpar::rows;
use k_types_meaning::TUnit;
use std::alloc::Global;

/// The context of a number.
fn context_at(contexts: &[Context], number: u32) -> Option<&Context>
    ensures { option_copied result ≡ slice_get contexts.now number }
{
    contexts.get(number as usize)
}

/// Adds the region of a pick's loop, where its turns look independent.
fn push_picked(contexts: &[Context], pick: &Pick, picked: &mut Seq<u32>) -> Result<(), NoMemory>
    ensures { OnOk result (picked.new ≡ picked.old ++ picked_by contexts.now pick.now) }
{
    if !pick.doall {
        return Ok(());
    }
    match context_at(contexts, pick.context) {
        None => Ok(()),
        Some(context) => picked.push(context.region),
    }
}

/// The regions of the picks whose turns look independent, in the order of the picks.
#[tactic(auto, unfolding(crate::specs::Annotated::picked_of))]
fn picked_of(alloc: Global, contexts: &[Context], picks: &[Pick]) -> Result<Seq<u32>, NoMemory>
    ensures { IfOk result (λ picked. picked ≡ picked_of contexts.now picks.now) }
{
    let mut picked = Seq::new(alloc);
    for pick in picks {
        push_picked(contexts, pick, &mut picked)?;
    }
    Ok(picked)
}

/// The regions of the loops that the plan of these contexts picks and whose turns look independent.
fn planned(alloc: Global, contexts: &ContextList) -> Result<Seq<u32>, NoMemory>
    requires { CanPlan contexts.now }
    ensures { IfOk result (λ picked. (advice : Advice) × IsPlanned contexts.now (Some advice) × (picked ≡ picked_of contexts.now advice.picks)) }
{
    let advice = plan(alloc, contexts, &standard_limits())?;
    picked_of(alloc, contexts.as_slice(), advice.picks.as_slice())
}

/// The regions of the loops that the plan of a profile picks and whose turns look independent: none where it has more than 65,536 contexts.
fn picked(alloc: Global, saved: &Saved) -> Result<Seq<u32>, NoMemory>
    requires { IsSaved saved.now }
    ensures { IfOk result (ArePicked saved.now.regions (nodes_of_profile saved.now)) }
{
    let root = saved.dict.len() - 1;
    match contexts(alloc, &saved.dict, root, &saved.regions) {
        Ok(contexts) => planned(alloc, &contexts),
        Err(ContextFault::Wide) => Ok(Seq::new(alloc)),
        Err(ContextFault::Memory) => Err(NoMemory),
    }
}

/// The annotated source of a profile, by the program of the source, with its marks, and by what its loops carry.
fn annotation_of(
    alloc: Global,
    saved: &Saved,
    source: &[u8],
    unit: &TUnit,
    marks: &Marks,
    found: &CarriedPairs,
) -> Result<Vec<u8>, NoMemory>
    requires saved { IsSaved saved.now }
    requires short { length source.now ≤ 1048576 }
    ensures { IfOk result (λ text.
        IsAnnotationOf source.now unit.now marks.now saved.now.regions (nodes_of_profile saved.now) found.now.loops text.items) }
{
    let root = saved.dict.len() - 1;
    let rows = rows(alloc, &saved.dict, root)?;
    let picked = picked(alloc, saved)?;
    annotate(
        alloc,
        source,
        unit,
        marks,
        &saved.regions,
        &rows,
        &picked,
        found,
    )
}

/// The annotated source of a run from which main returned: by the program of the source, with its marks, by what main returned, how many operations were
/// made, the regions, the dictionary of the tree, if it is within its limits, and by what the loops carried. Where there are more than 65,536 contexts, no
/// loop is marked; where the dictionary is over its limits, the source is as it was.
pub fn run_annotation(
    alloc: Global,
    source: &[u8],
    unit: &TUnit,
    marks: &Marks,
    exit: i32,
    ops: u64,
    regions: Seq<Region>,
    dict: Option<Dict>,
    found: &CarriedPairs,
) -> Result<Vec<u8>, NoMemory>
    requires summed { (ran : Ran) × IsSummed exit ops regions dict ran }
    requires short { length source.now ≤ 1048576 }
    ensures { IfOk result (λ text. (ran : Ran) → IsSummed exit ops regions dict ran
        → IsRunAnnotation source.now unit.now marks.now ran found.now.loops text.items) }
{
    match dict {
        Some(dict) => {
            let saved = Saved {
                exit,
                ops,
                regions,
                dict,
            };
            annotation_of(alloc, &saved, source, unit, marks, found)
        }
        None => {
            let text = Vec::from_slice(alloc, source)?;
            Ok(text)
        }
    }
}
