//! The parts of a profile as JSON, each at the end of a text.
ghost use Rattle.std.specs.Prelude.{◌≡◌, ◌++◌, OnOk};
ghost use Rattle.std.specs.List.{join_by};
ghost use Rattle.k_data.specs.Records as spec;
ghost use Rattle.k_text.specs.Texts.{kind_text};

use k_dict_entries::{Entry, Run};
use k_num::NoMemory;
use k_optab::{Region, RegionKind};
use k_plan::Pick;
use k_selfpar::{Context, Frac, Row};
use k_text::{push, push_named};

/// The word for a kind of region.
pub(crate) fn kind_name(kind: RegionKind) -> &'static str
    ensures { result.now ≡ kind_text kind }
{
    match kind {
        RegionKind::Func => "func",
        RegionKind::Loop => "loop",
        RegionKind::Body => "body",
    }
}

/// A fraction.
fn push_fraction(text: &mut Vec<u8>, fraction: &Frac) -> Result<(), NoMemory>
    ensures { OnOk result (text.new.items ≡ text.old.items ++ spec.fraction_json fraction.now) }
{
    push_named(text, "{\"num\":", fraction.num())?;
    push_named(text, ",\"den\":", fraction.den())?;
    push(text, "}")
}

/// How many instances there are, their work and their path together.
fn push_counts(text: &mut Vec<u8>, instances: u64, work: u64, path: u64) -> Result<(), NoMemory>
    ensures { OnOk result (text.new.items ≡ text.old.items ++ spec.counts_json instances work path) }
{
    push_named(text, ",\"instances\":", instances)?;
    push_named(text, ",\"work\":", work)?;
    push_named(text, ",\"path\":", path)
}

/// What instances come to together.
fn push_sums(
    text: &mut Vec<u8>,
    instances: u64,
    work: u64,
    path: u64,
    sp: &Frac,
) -> Result<(), NoMemory>
    ensures { OnOk result (text.new.items ≡ text.old.items ++ spec.sums_json instances work path sp.now) }
{
    push_counts(text, instances, work, path)?;
    push(text, ",\"sp\":")?;
    push_fraction(text, sp)
}

/// The kind and the function of a region.
fn push_named_region(text: &mut Vec<u8>, region: &Region) -> Result<(), NoMemory>
    ensures { OnOk result (text.new.items ≡ text.old.items ++ spec.region_name region.now) }
{
    push(text, "{\"kind\":\"")?;
    push(text, kind_name(region.kind))?;
    push(text, "\",\"function\":\"")?;
    push(text, region.func.as_str())
}

/// A region.
#[tactic(auto, unfolding(crate::specs::Records::region_json))]
fn push_region(text: &mut Vec<u8>, region: &Region) -> Result<(), NoMemory>
    ensures { OnOk result (text.new.items ≡ text.old.items ++ spec.region_json region.now) }
{
    push_named_region(text, region)?;
    push_named(text, "\",\"line\":", region.place.line)?;
    push_named(text, ",\"column\":", region.place.column)?;
    push(text, "}")
}

/// A row.
#[tactic(auto, unfolding(crate::specs::Records::row_json))]
fn push_row(text: &mut Vec<u8>, row: &Row) -> Result<(), NoMemory>
    ensures { OnOk result (text.new.items ≡ text.old.items ++ spec.row_json row.now) }
{
    push_named(text, "{\"region\":", row.region)?;
    push_sums(text, row.instances, row.work, row.path, &row.sp)?;
    push(text, "}")
}

/// The numbers of a context beside those of its instances.
fn push_context_head(text: &mut Vec<u8>, context: &Context) -> Result<(), NoMemory>
    ensures { OnOk result (text.new.items ≡ text.old.items ++ spec.context_head context.now) }
{
    push_named(text, "{\"parent\":", context.parent)?;
    push_named(text, ",\"region\":", context.region)?;
    push_named(text, ",\"turns\":", context.turns)
}

/// A context.
#[tactic(auto, unfolding(crate::specs::Records::context_json))]
fn push_context(text: &mut Vec<u8>, context: &Context) -> Result<(), NoMemory>
    ensures { OnOk result (text.new.items ≡ text.old.items ++ spec.context_json context.now) }
{
    push_context_head(text, context)?;
    push_sums(
        text,
        context.instances,
        context.work,
        context.path,
        &context.sp,
    )?;
    push(text, "}")
}

/// A truth value.
fn truth_name(is: bool) -> &'static str
    ensures { result.now ≡ spec.truth_json is }
{
    if is { "true" } else { "false" }
}

/// Whether the turns of a pick look independent.
fn push_doall(text: &mut Vec<u8>, doall: bool) -> Result<(), NoMemory>
    ensures { OnOk result (text.new.items ≡ text.old.items ++ spec.doall_json doall) }
{
    push(text, ",\"doall\":")?;
    push(text, truth_name(doall))
}

/// A pick.
#[tactic(auto, unfolding(crate::specs::Records::pick_json))]
fn push_pick(text: &mut Vec<u8>, pick: &Pick) -> Result<(), NoMemory>
    ensures { OnOk result (text.new.items ≡ text.old.items ++ spec.pick_json pick.now) }
{
    push_named(text, "{\"context\":", pick.context)?;
    push_doall(text, pick.doall)?;
    push_named(text, ",\"saves\":", pick.saves)?;
    push(text, "}")
}

/// Children of one shape.
#[tactic(auto, unfolding(crate::specs::Records::run_json))]
fn push_run(text: &mut Vec<u8>, run: &Run) -> Result<(), NoMemory>
    ensures { OnOk result (text.new.items ≡ text.old.items ++ spec.run_json run.now) }
{
    push_named(text, "{\"entry\":", run.entry)?;
    push_named(text, ",\"count\":", run.count)?;
    push(text, "}")
}

/// An entry of the dictionary.
#[tactic(auto, unfolding(crate::specs::Records::entry_json))]
fn push_entry(text: &mut Vec<u8>, entry: &Entry) -> Result<(), NoMemory>
    ensures { OnOk result (text.new.items ≡ text.old.items ++ spec.entry_json entry.now) }
{
    push_named(text, "{\"region\":", entry.region)?;
    push_named(text, ",\"work\":", entry.work)?;
    push_named(text, ",\"path\":", entry.path)?;
    push(text, ",\"runs\":")?;
    push_runs(text, entry.runs.as_slice())?;
    push(text, "}")
}

/// Regions, with a comma between each two.
fn push_regions_parted(text: &mut Vec<u8>, regions: &[Region]) -> Result<(), NoMemory>
    ensures { OnOk result (text.new.items ≡ text.old.items ++ join_by spec.region_json spec.comma regions.now) }
{
    let Some((first, rest)) = regions.split_first() else {
        return Ok(());
    };
    push_region(text, first)?;
    for region in rest {
        push(text, ",")?;
        push_region(text, region)?;
    }
    Ok(())
}

/// Regions as a list.
pub(crate) fn push_regions(text: &mut Vec<u8>, regions: &[Region]) -> Result<(), NoMemory>
    ensures { OnOk result (text.new.items ≡ text.old.items ++ spec.array spec.region_json regions.now) }
{
    push(text, "[")?;
    push_regions_parted(text, regions)?;
    push(text, "]")
}

/// Rows, with a comma between each two.
fn push_rows_parted(text: &mut Vec<u8>, rows: &[Row]) -> Result<(), NoMemory>
    ensures { OnOk result (text.new.items ≡ text.old.items ++ join_by spec.row_json spec.comma rows.now) }
{
    let Some((first, rest)) = rows.split_first() else {
        return Ok(());
    };
    push_row(text, first)?;
    for row in rest {
        push(text, ",")?;
        push_row(text, row)?;
    }
    Ok(())
}

/// Rows as a list.
pub(crate) fn push_rows(text: &mut Vec<u8>, rows: &[Row]) -> Result<(), NoMemory>
    ensures { OnOk result (text.new.items ≡ text.old.items ++ spec.array spec.row_json rows.now) }
{
    push(text, "[")?;
    push_rows_parted(text, rows)?;
    push(text, "]")
}

/// Contexts, with a comma between each two.
fn push_contexts_parted(text: &mut Vec<u8>, contexts: &[Context]) -> Result<(), NoMemory>
    ensures { OnOk result (text.new.items ≡ text.old.items ++ join_by spec.context_json spec.comma contexts.now) }
{
    let Some((first, rest)) = contexts.split_first() else {
        return Ok(());
    };
    push_context(text, first)?;
    for context in rest {
        push(text, ",")?;
        push_context(text, context)?;
    }
    Ok(())
}

/// Contexts as a list.
pub(crate) fn push_contexts(text: &mut Vec<u8>, contexts: &[Context]) -> Result<(), NoMemory>
    ensures { OnOk result (text.new.items ≡ text.old.items ++ spec.array spec.context_json contexts.now) }
{
    push(text, "[")?;
    push_contexts_parted(text, contexts)?;
    push(text, "]")
}

/// Picks, with a comma between each two.
fn push_picks_parted(text: &mut Vec<u8>, picks: &[Pick]) -> Result<(), NoMemory>
    ensures { OnOk result (text.new.items ≡ text.old.items ++ join_by spec.pick_json spec.comma picks.now) }
{
    let Some((first, rest)) = picks.split_first() else {
        return Ok(());
    };
    push_pick(text, first)?;
    for pick in rest {
        push(text, ",")?;
        push_pick(text, pick)?;
    }
    Ok(())
}

/// Picks as a list.
pub(crate) fn push_picks(text: &mut Vec<u8>, picks: &[Pick]) -> Result<(), NoMemory>
    ensures { OnOk result (text.new.items ≡ text.old.items ++ spec.array spec.pick_json picks.now) }
{
    push(text, "[")?;
    push_picks_parted(text, picks)?;
    push(text, "]")
}

/// Runs, with a comma between each two.
fn push_runs_parted(text: &mut Vec<u8>, runs: &[Run]) -> Result<(), NoMemory>
    ensures { OnOk result (text.new.items ≡ text.old.items ++ join_by spec.run_json spec.comma runs.now) }
{
    let Some((first, rest)) = runs.split_first() else {
        return Ok(());
    };
    push_run(text, first)?;
    for run in rest {
        push(text, ",")?;
        push_run(text, run)?;
    }
    Ok(())
}

/// Runs as a list.
fn push_runs(text: &mut Vec<u8>, runs: &[Run]) -> Result<(), NoMemory>
    ensures { OnOk result (text.new.items ≡ text.old.items ++ spec.array spec.run_json runs.now) }
{
    push(text, "[")?;
    push_runs_parted(text, runs)?;
    push(text, "]")
}

/// Entries, with a comma between each two.
fn push_entries_parted(text: &mut Vec<u8>, entries: &[Entry]) -> Result<(), NoMemory>
    ensures { OnOk result (text.new.items ≡ text.old.items ++ join_by spec.entry_json spec.comma entries.now) }
{
    let Some((first, rest)) = entries.split_first() else {
        return Ok(());
    };
    push_entry(text, first)?;
    for entry in rest {
        push(text, ",")?;
        push_entry(text, entry)?;
    }
    Ok(())
}

/// Entries as a list.
pub(crate) fn push_entries(text: &mut Vec<u8>, entries: &[Entry]) -> Result<(), NoMemory>
    ensures { OnOk result (text.new.items ≡ text.old.items ++ spec.array spec.entry_json entries.now) }
{
    push(text, "[")?;
    push_entries_parted(text, entries)?;
    push(text, "]")
}
