//! The lines of a plan.
ghost use Rattle.std.specs.Prelude.{◌≡◌, ◌<◌, ◌++◌, All, IfOk, OnOk, length};
ghost use Rattle.std.specs.List.{flat_map};
ghost use Rattle.std.specs.Option.{ForSome, option_copied};
ghost use Rattle.k_plan.specs.Plan.{ParentsComeFirst};
ghost use Rattle.k_report.specs.PlanLines.{NamesContexts, advice_text, doall_text, loop_text, pick_line, plan_text, regions_text, regions_to, total_line, wide_line};

use crate::regions::region_at;
use k_num::NoMemory;
use k_optab::Region;
use k_plan::{Advice, Pick};
use k_selfpar::{Context, root_work};
use k_text::{push, push_name, push_named, push_number};
use std::alloc::Global;

/// The numbers of the regions from the root to a context.
fn regions_to(alloc: Global, contexts: &[Context], number: u32) -> Result<Vec<u32>, NoMemory>
    requires parents { ParentsComeFirst contexts.now }
    requires number { number < length contexts.now }
    ensures { IfOk result (λ regions. regions.items ≡ regions_to contexts.now number) }
{
    let mut regions = Vec::new(alloc);
    let mut at = number as usize;
    while at > 0 {
        let context = &contexts[at];
        regions.push(context.region)?;
        at = context.parent as usize;
    }
    regions.push(contexts[0].region)?;
    regions.as_mut_slice().reverse();
    Ok(regions)
}

/// Numbers of regions, with a slash between each two.
fn push_regions(text: &mut Vec<u8>, regions: &[u32]) -> Result<(), NoMemory>
    ensures { OnOk result (text.new.items ≡ text.old.items ++ regions_text regions.now) }
{
    let Some((first, rest)) = regions.split_first() else {
        return Ok(());
    };
    push_number(text, *first)?;
    for region in rest {
        push_named(text, "/", *region)?;
    }
    Ok(())
}

/// Whether a loop's turns look independent.
fn doall_name(doall: bool) -> &'static str
    ensures { result.now ≡ doall_text doall }
{
    if doall { "doall" } else { "doacross" }
}

/// The regions from the root to a context.
fn push_regions_to(
    alloc: Global,
    text: &mut Vec<u8>,
    contexts: &[Context],
    number: u32,
) -> Result<(), NoMemory>
    requires parents { ParentsComeFirst contexts.now }
    requires number { number < length contexts.now }
    ensures { OnOk result (text.new.items ≡ text.old.items ++ regions_text (regions_to contexts.now number)) }
{
    let regions = regions_to(alloc, contexts, number)?;
    push_regions(text, regions.as_slice())
}

/// The function and the place of a context's region.
fn push_loop(
    text: &mut Vec<u8>,
    regions: &[Region],
    contexts: &[Context],
    number: u32,
) -> Result<(), NoMemory>
    requires regions { All (λ context. context.region < length regions.now) contexts.now }
    requires number { number < length contexts.now }
    ensures { OnOk result (text.new.items ≡ text.old.items ++ loop_text regions.now contexts.now number) }
{
    let context = &contexts[number as usize];
    push_name(text, region_at(regions, context.region))
}

/// The line of a pick.
fn push_pick(
    alloc: Global,
    text: &mut Vec<u8>,
    regions: &[Region],
    contexts: &[Context],
    pick: Pick,
) -> Result<(), NoMemory>
    requires parents { ParentsComeFirst contexts.now }
    requires regions { All (λ context. context.region < length regions.now) contexts.now }
    requires number { pick.context < length contexts.now }
    ensures { OnOk result (text.new.items ≡ text.old.items ++ pick_line regions.now contexts.now pick) }
{
    push(text, "plan loop ")?;
    push_loop(text, regions, contexts, pick.context)?;
    push(text, " at ")?;
    push_regions_to(alloc, text, contexts, pick.context)?;
    push(text, " ")?;
    push(text, doall_name(pick.doall))?;
    push_named(text, " saves ", pick.saves)?;
    push(text, "\n")
}

/// The lines of picks.
fn push_picks(
    alloc: Global,
    text: &mut Vec<u8>,
    regions: &[Region],
    contexts: &[Context],
    picks: &[Pick],
) -> Result<(), NoMemory>
    requires parents { ParentsComeFirst contexts.now }
    requires regions { All (λ context. context.region < length regions.now) contexts.now }
    requires picks { All (λ pick. pick.context < length contexts.now) picks.now }
    ensures { OnOk result (text.new.items ≡ text.old.items ++ flat_map (pick_line regions.now contexts.now) picks.now) }
{
    for pick in picks {
        push_pick(alloc, text, regions, contexts, *pick)?;
    }
    Ok(())
}

/// The line of the total.
fn push_total(text: &mut Vec<u8>, saved: u64, work: u64) -> Result<(), NoMemory>
    ensures { OnOk result (text.new.items ≡ text.old.items ++ total_line saved work) }
{
    push_named(text, "plan total ", saved)?;
    push_named(text, " of ", work)?;
    push(text, "\n")
}

/// The lines of a plan.
fn push_advice(
    alloc: Global,
    text: &mut Vec<u8>,
    regions: &[Region],
    contexts: &[Context],
    advice: &Advice,
) -> Result<(), NoMemory>
    requires parents { ParentsComeFirst contexts.now }
    requires regions { All (λ context. context.region < length regions.now) contexts.now }
    requires picks { NamesContexts contexts.now advice.now }
    ensures { OnOk result (text.new.items ≡ text.old.items ++ advice_text regions.now contexts.now advice.now) }
{
    push_picks(alloc, text, regions, contexts, advice.picks.as_slice())?;
    push_total(text, advice.total, root_work(contexts))
}

/// The line where there are too many contexts for a plan.
pub fn wide_line() -> &'static str
    ensures { result.now ≡ wide_line }
{
    "plan: over 65536 contexts\n"
}

/// The lines of a plan, or the one line where there are too many contexts for one.
pub(crate) fn push_plan(
    alloc: Global,
    text: &mut Vec<u8>,
    regions: &[Region],
    contexts: &[Context],
    plan: Option<&Advice>,
) -> Result<(), NoMemory>
    requires parents { ParentsComeFirst contexts.now }
    requires regions { All (λ context. context.region < length regions.now) contexts.now }
    requires plan { ForSome (option_copied plan) (NamesContexts contexts.now) }
    ensures { OnOk result (text.new.items ≡ text.old.items ++ plan_text regions.now contexts.now (option_copied plan.entry)) }
{
    match plan {
        None => push(text, wide_line()),
        Some(advice) => push_advice(alloc, text, regions, contexts, advice),
    }
}
