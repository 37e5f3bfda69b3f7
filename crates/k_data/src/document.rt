//! A profile as one JSON document, and the sum of many.
ghost use Rattle.std.specs.Prelude.{◌≡◌, ◌++◌, IfOk, OnOk};
ghost use Rattle.std.specs.Option.{option_copied};
ghost use Rattle.k_data.specs.Document as spec;

use crate::records::{push_contexts, push_entries, push_picks, push_regions, push_rows};
use k_dict_entries::Dict;
use k_num::{NoMemory, Seq};
use k_optab::Region;
use k_plan::Advice;
use k_selfpar::{Context, ContextList, Row, root_work};
use k_text::{push, push_named};
use std::alloc::Global;

/// A plan, and the work of main of which it saves.
fn push_advice(text: &mut Vec<u8>, advice: &Advice, work: u64) -> Result<(), NoMemory>
    ensures { OnOk result (text.new.items ≡ text.old.items ++ spec.advice_json advice.now work) }
{
    push(text, "{\"picks\":")?;
    push_picks(text, advice.picks.as_slice())?;
    push_named(text, ",\"total\":", advice.total)?;
    push_named(text, ",\"work\":", work)?;
    push(text, "}")
}

/// A plan, or null.
fn push_plan(text: &mut Vec<u8>, plan: Option<&Advice>, work: u64) -> Result<(), NoMemory>
    ensures { OnOk result (text.new.items ≡ text.old.items ++ spec.plan_json (option_copied plan.entry) work) }
{
    match plan {
        None => push(text, "null"),
        Some(advice) => push_advice(text, advice, work),
    }
}

/// The dictionary as one more member, where it is asked for.
fn push_dict(text: &mut Vec<u8>, dict: Option<&Dict>) -> Result<(), NoMemory>
    ensures { OnOk result (text.new.items ≡ text.old.items ++ spec.dict_json (option_copied dict.entry)) }
{
    let Some(dict) = dict else {
        return Ok(());
    };
    push(text, ",\"dictionary\":")?;
    push_entries(text, dict.entries())
}

/// What main returned, how many operations were made, and the regions.
fn push_run_members(
    text: &mut Vec<u8>,
    exit: i32,
    ops: u64,
    regions: &[Region],
) -> Result<(), NoMemory>
    ensures { OnOk result (text.new.items ≡ text.old.items ++ spec.run_members exit ops regions.now) }
{
    push_named(text, "{\"exit\":", exit)?;
    push_named(text, ",\"ops\":", ops)?;
    push(text, ",\"regions\":")?;
    push_regions(text, regions)
}

/// How many runs there were, how many operations they made, and the regions.
fn push_sum_members(
    text: &mut Vec<u8>,
    runs: u64,
    ops: u64,
    regions: &[Region],
) -> Result<(), NoMemory>
    ensures { OnOk result (text.new.items ≡ text.old.items ++ spec.sum_members runs ops regions.now) }
{
    push_named(text, "{\"runs\":", runs)?;
    push_named(text, ",\"ops\":", ops)?;
    push(text, ",\"regions\":")?;
    push_regions(text, regions)
}

/// The rows, the contexts, and the plan.
fn push_tree_members(
    text: &mut Vec<u8>,
    rows: &[Row],
    contexts: &[Context],
    plan: Option<&Advice>,
) -> Result<(), NoMemory>
    ensures { OnOk result (text.new.items ≡ text.old.items ++ spec.tree_members rows.now contexts.now (option_copied plan.entry)) }
{
    push(text, ",\"rows\":")?;
    push_rows(text, rows)?;
    push(text, ",\"contexts\":")?;
    push_contexts(text, contexts)?;
    push(text, ",\"plan\":")?;
    push_plan(text, plan, root_work(contexts))
}

/// A profile as one JSON document: what main returned, how many operations were made, the regions, the rows, the contexts, the plan, or null
/// where there are too many contexts for one, and the entries of the dictionary where it is given.
pub fn profile_json(
    alloc: Global,
    regions: &Seq<Region>,
    exit: i32,
    ops: u64,
    rows: &Seq<Row>,
    dict: Option<&Dict>,
    contexts: &ContextList,
    plan: Option<&Advice>,
) -> Result<Vec<u8>, NoMemory>
    ensures { IfOk result (λ text. text.items ≡ spec.profile_json regions.now exit ops rows.now (option_copied dict.entry) contexts.now (option_copied plan.entry)) }
{
    let mut text = Vec::new(alloc);
    push_run_members(&mut text, exit, ops, regions.as_slice())?;
    push_tree_members(&mut text, rows.as_slice(), contexts.as_slice(), plan)?;
    push_dict(&mut text, dict)?;
    push(&mut text, "}\n")?;
    Ok(text)
}

/// The sum of many profiles as one JSON document: how many runs there were, and else what the document of a profile has.
pub fn sum_json(
    alloc: Global,
    regions: &Seq<Region>,
    runs: u64,
    ops: u64,
    rows: &Seq<Row>,
    dict: Option<&Dict>,
    contexts: &ContextList,
    plan: Option<&Advice>,
) -> Result<Vec<u8>, NoMemory>
    ensures { IfOk result (λ text. text.items ≡ spec.sum_json regions.now runs ops rows.now (option_copied dict.entry) contexts.now (option_copied plan.entry)) }
{
    let mut text = Vec::new(alloc);
    push_sum_members(&mut text, runs, ops, regions.as_slice())?;
    push_tree_members(&mut text, rows.as_slice(), contexts.as_slice(), plan)?;
    push_dict(&mut text, dict)?;
    push(&mut text, "}\n")?;
    Ok(text)
}
