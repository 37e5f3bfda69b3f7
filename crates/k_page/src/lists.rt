//! The tables of a page: the plan, the rows and the dictionary.
ghost use Rattle.std.specs.Prelude.{◌≡◌, ◌++◌, OnOk, option_copied};
ghost use Rattle.std.specs.List.{flat_map};
ghost use Rattle.k_page.specs.Lists as spec;

use crate::amount::{push_ratio, push_share};
use crate::cells::{
    context_at, push_head_cell, push_line_cell, push_name_cell, push_number_cell, region_at,
};
use crate::markup::{Tag, finish, push_element, start};
use crate::prose::{Prose, push_prose};
use k_dict_entries::{Dict, Entry};
use k_num::NoMemory;
use k_optab::Region;
use k_plan::{Advice, Pick};
use k_selfpar::{Context, Frac, Row};
use k_text::{push, push_runs};

/// A cell of a share.
#[tactic(auto, unfolding(crate::specs::Lists::share_cell))]
pub(crate) fn push_share_cell(text: &mut Vec<u8>, part: u64, whole: u64) -> Result<(), NoMemory>
    ensures { OnOk result (text.new.items ≡ text.old.items ++ spec.share_cell part whole) }
{
    start(text, Tag::Cell)?;
    push_share(text, part, whole)?;
    finish(text, Tag::Cell)
}

/// A cell of a fraction.
#[tactic(auto, unfolding(crate::specs::Lists::ratio_cell))]
fn push_ratio_cell(text: &mut Vec<u8>, ratio: &Frac) -> Result<(), NoMemory>
    ensures { OnOk result (text.new.items ≡ text.old.items ++ spec.ratio_cell ratio.now) }
{
    start(text, Tag::Cell)?;
    push_ratio(text, ratio)?;
    finish(text, Tag::Cell)
}

/// The numbers of a row.
#[tactic(auto, unfolding(crate::specs::Lists::row_cells))]
fn push_row_cells(text: &mut Vec<u8>, row: &Row, whole: u64) -> Result<(), NoMemory>
    ensures { OnOk result (text.new.items ≡ text.old.items ++ spec.row_cells whole row.now) }
{
    push_number_cell(text, row.instances)?;
    push_number_cell(text, row.work)?;
    push_share_cell(text, row.work, whole)?;
    push_number_cell(text, row.path)?;
    push_ratio_cell(text, &row.sp)
}

/// The line of a row of this region.
#[tactic(auto, unfolding(crate::specs::Lists::row_of))]
fn push_row_of(text: &mut Vec<u8>, row: &Row, whole: u64, region: &Region) -> Result<(), NoMemory>
    ensures { OnOk result (text.new.items ≡ text.old.items ++ spec.row_of whole row.now region.now) }
{
    start(text, Tag::Row)?;
    push_name_cell(text, region)?;
    push_line_cell(text, region.place.line)?;
    push_row_cells(text, row, whole)?;
    finish(text, Tag::Row)
}

/// The line of a row, which names a region of the list.
fn push_row(text: &mut Vec<u8>, regions: &[Region], whole: u64, row: &Row) -> Result<(), NoMemory>
    ensures { OnOk result (text.new.items ≡ text.old.items ++ spec.row_line regions.now whole row.now) }
{
    match region_at(regions, row.region) {
        None => Ok(()),
        Some(region) => push_row_of(text, row, whole, region),
    }
}

/// The lines of rows.
fn push_row_lines(
    text: &mut Vec<u8>,
    regions: &[Region],
    whole: u64,
    rows: &[Row],
) -> Result<(), NoMemory>
    ensures { OnOk result (text.new.items ≡ text.old.items ++ flat_map (spec.row_line regions.now whole) rows.now) }
{
    for row in rows {
        push_row(text, regions, whole, row)?;
    }
    Ok(())
}

/// The heads of the columns of numbers.
#[tactic(auto, unfolding(crate::specs::Lists::number_heads))]
fn push_number_heads(text: &mut Vec<u8>) -> Result<(), NoMemory>
    ensures { OnOk result (text.new.items ≡ text.old.items ++ spec.number_heads) }
{
    push_head_cell(text, "n")?;
    push_head_cell(text, "work")?;
    push_head_cell(text, "share")?;
    push_head_cell(text, "path")?;
    push_head_cell(text, "sp")
}

/// The heads of the columns of rows.
#[tactic(auto, unfolding(crate::specs::Lists::row_heads))]
fn push_row_heads(text: &mut Vec<u8>) -> Result<(), NoMemory>
    ensures { OnOk result (text.new.items ≡ text.old.items ++ spec.row_heads) }
{
    start(text, Tag::Row)?;
    push_head_cell(text, "region")?;
    push_head_cell(text, "line")?;
    push_number_heads(text)?;
    finish(text, Tag::Row)
}

/// The rows as a table.
#[tactic(auto, unfolding(crate::specs::Lists::rows_table))]
pub(crate) fn push_rows(
    text: &mut Vec<u8>,
    regions: &[Region],
    whole: u64,
    rows: &[Row],
) -> Result<(), NoMemory>
    ensures { OnOk result (text.new.items ≡ text.old.items ++ spec.rows_table regions.now whole rows.now) }
{
    start(text, Tag::Table)?;
    push_prose(text, Tag::Caption, Prose::RowsCaption)?;
    push_row_heads(text)?;
    push_row_lines(text, regions, whole, rows)?;
    finish(text, Tag::Table)
}

/// Whether the turns of a pick look independent, in a word.
fn way_word(doall: bool) -> &'static str
    ensures { result.now ≡ spec.way_word doall }
{
    if doall { "doall" } else { "doacross" }
}

/// The cells of a pick.
#[tactic(auto, unfolding(crate::specs::Lists::pick_cells))]
fn push_pick_cells(text: &mut Vec<u8>, pick: &Pick, whole: u64) -> Result<(), NoMemory>
    ensures { OnOk result (text.new.items ≡ text.old.items ++ spec.pick_cells whole pick.now) }
{
    push_element(text, Tag::Cell, way_word(pick.doall))?;
    push_number_cell(text, pick.saves)?;
    push_share_cell(text, pick.saves, whole)
}

/// The line of a pick whose context is of this region.
#[tactic(auto, unfolding(crate::specs::Lists::pick_of))]
fn push_pick_of(
    text: &mut Vec<u8>,
    pick: &Pick,
    whole: u64,
    region: &Region,
) -> Result<(), NoMemory>
    ensures { OnOk result (text.new.items ≡ text.old.items ++ spec.pick_of whole pick.now region.now) }
{
    start(text, Tag::Row)?;
    push_name_cell(text, region)?;
    push_line_cell(text, region.place.line)?;
    push_pick_cells(text, pick, whole)?;
    finish(text, Tag::Row)
}

/// The line of a pick of this context.
fn push_pick_in(
    text: &mut Vec<u8>,
    regions: &[Region],
    whole: u64,
    pick: &Pick,
    context: &Context,
) -> Result<(), NoMemory>
    ensures { OnOk result (text.new.items ≡ text.old.items ++ spec.pick_in regions.now whole pick.now context.now) }
{
    match region_at(regions, context.region) {
        None => Ok(()),
        Some(region) => push_pick_of(text, pick, whole, region),
    }
}

/// The line of a pick, which names a context of the list.
fn push_pick(
    text: &mut Vec<u8>,
    regions: &[Region],
    contexts: &[Context],
    whole: u64,
    pick: &Pick,
) -> Result<(), NoMemory>
    ensures { OnOk result (text.new.items ≡ text.old.items ++ spec.pick_line regions.now contexts.now whole pick.now) }
{
    match context_at(contexts, pick.context) {
        None => Ok(()),
        Some(context) => push_pick_in(text, regions, whole, pick, context),
    }
}

/// The lines of picks.
fn push_pick_lines(
    text: &mut Vec<u8>,
    regions: &[Region],
    contexts: &[Context],
    whole: u64,
    picks: &[Pick],
) -> Result<(), NoMemory>
    ensures { OnOk result (text.new.items ≡ text.old.items ++ flat_map (spec.pick_line regions.now contexts.now whole) picks.now) }
{
    for pick in picks {
        push_pick(text, regions, contexts, whole, pick)?;
    }
    Ok(())
}

/// The heads of the cells of picks.
#[tactic(auto, unfolding(crate::specs::Lists::pick_cell_heads))]
fn push_pick_cell_heads(text: &mut Vec<u8>) -> Result<(), NoMemory>
    ensures { OnOk result (text.new.items ≡ text.old.items ++ spec.pick_cell_heads) }
{
    push_head_cell(text, "way")?;
    push_head_cell(text, "saves")?;
    push_head_cell(text, "share")
}

/// The heads of the columns of picks.
#[tactic(auto, unfolding(crate::specs::Lists::pick_heads))]
fn push_pick_heads(text: &mut Vec<u8>) -> Result<(), NoMemory>
    ensures { OnOk result (text.new.items ≡ text.old.items ++ spec.pick_heads) }
{
    start(text, Tag::Row)?;
    push_head_cell(text, "loop")?;
    push_head_cell(text, "line")?;
    push_pick_cell_heads(text)?;
    finish(text, Tag::Row)
}

/// A plan as a table.
#[tactic(auto, unfolding(crate::specs::Lists::advice_table))]
fn push_advice(
    text: &mut Vec<u8>,
    regions: &[Region],
    contexts: &[Context],
    whole: u64,
    advice: &Advice,
) -> Result<(), NoMemory>
    ensures { OnOk result (text.new.items ≡ text.old.items ++ spec.advice_table regions.now contexts.now whole advice.now) }
{
    start(text, Tag::Table)?;
    push_prose(text, Tag::Caption, Prose::PlanCaption)?;
    push_pick_heads(text)?;
    push_pick_lines(text, regions, contexts, whole, advice.picks.as_slice())?;
    finish(text, Tag::Table)
}

/// The plan as a table, or that there is none.
#[tactic(auto, unfolding(crate::specs::Lists::plan_part))]
pub(crate) fn push_plan(
    text: &mut Vec<u8>,
    regions: &[Region],
    contexts: &[Context],
    whole: u64,
    plan: Option<&Advice>,
) -> Result<(), NoMemory>
    ensures { OnOk result (text.new.items ≡ text.old.items ++ spec.plan_part regions.now contexts.now whole (option_copied plan.entry)) }
{
    match plan {
        None => push_prose(text, Tag::Paragraph, Prose::NoPlan),
        Some(advice) => push_advice(text, regions, contexts, whole, advice),
    }
}

/// The children of an entry.
#[tactic(auto, unfolding(crate::specs::Lists::run_cell))]
fn push_run_cell(text: &mut Vec<u8>, entry: &Entry) -> Result<(), NoMemory>
    ensures { OnOk result (text.new.items ≡ text.old.items ++ spec.run_cell entry.now) }
{
    start(text, Tag::Cell)?;
    push_runs(text, entry.runs.as_slice())?;
    finish(text, Tag::Cell)
}

/// The cells of an entry.
#[tactic(auto, unfolding(crate::specs::Lists::entry_cells))]
fn push_entry_cells(text: &mut Vec<u8>, entry: &Entry) -> Result<(), NoMemory>
    ensures { OnOk result (text.new.items ≡ text.old.items ++ spec.entry_cells entry.now) }
{
    push_number_cell(text, entry.work)?;
    push_number_cell(text, entry.path)?;
    push_run_cell(text, entry)
}

/// The line of an entry of this number and region.
#[tactic(auto, unfolding(crate::specs::Lists::entry_of))]
fn push_entry_of(
    text: &mut Vec<u8>,
    number: u64,
    entry: &Entry,
    region: &Region,
) -> Result<(), NoMemory>
    ensures { OnOk result (text.new.items ≡ text.old.items ++ spec.entry_of number entry.now region.now) }
{
    start(text, Tag::Row)?;
    push_name_cell(text, region)?;
    push_number_cell(text, number)?;
    push_entry_cells(text, entry)?;
    finish(text, Tag::Row)
}

/// The line of an entry, which names a region of the list.
fn push_entry(
    text: &mut Vec<u8>,
    regions: &[Region],
    number: u64,
    entry: &Entry,
) -> Result<(), NoMemory>
    ensures { OnOk result (text.new.items ≡ text.old.items ++ spec.entry_line regions.now number entry.now) }
{
    match region_at(regions, entry.region) {
        None => Ok(()),
        Some(region) => push_entry_of(text, number, entry, region),
    }
}

/// The lines of entries.
fn push_entry_lines(
    text: &mut Vec<u8>,
    regions: &[Region],
    entries: &[Entry],
) -> Result<(), NoMemory>
    ensures { OnOk result (text.new.items ≡ text.old.items ++ spec.entry_lines regions.now 0 entries.now) }
{
    let mut number: usize = 0;
    for entry in entries {
        push_entry(text, regions, number as u64, entry)?;
        number += 1;
    }
    Ok(())
}

/// The heads of the cells of entries.
#[tactic(auto, unfolding(crate::specs::Lists::entry_cell_heads))]
fn push_entry_cell_heads(text: &mut Vec<u8>) -> Result<(), NoMemory>
    ensures { OnOk result (text.new.items ≡ text.old.items ++ spec.entry_cell_heads) }
{
    push_head_cell(text, "work")?;
    push_head_cell(text, "path")?;
    push_head_cell(text, "children")
}

/// The heads of the columns of entries.
#[tactic(auto, unfolding(crate::specs::Lists::entry_heads))]
fn push_entry_heads(text: &mut Vec<u8>) -> Result<(), NoMemory>
    ensures { OnOk result (text.new.items ≡ text.old.items ++ spec.entry_heads) }
{
    start(text, Tag::Row)?;
    push_head_cell(text, "region")?;
    push_head_cell(text, "entry")?;
    push_entry_cell_heads(text)?;
    finish(text, Tag::Row)
}

/// Entries as a table.
#[tactic(auto, unfolding(crate::specs::Lists::entry_table))]
fn push_entries(text: &mut Vec<u8>, regions: &[Region], entries: &[Entry]) -> Result<(), NoMemory>
    ensures { OnOk result (text.new.items ≡ text.old.items ++ spec.entry_table regions.now entries.now) }
{
    start(text, Tag::Table)?;
    push_prose(text, Tag::Caption, Prose::DictionaryCaption)?;
    push_entry_heads(text)?;
    push_entry_lines(text, regions, entries)?;
    finish(text, Tag::Table)
}

/// The dictionary as a table, where it is given.
#[tactic(auto, unfolding(crate::specs::Lists::dictionary_part))]
pub(crate) fn push_dictionary(
    text: &mut Vec<u8>,
    regions: &[Region],
    dict: Option<&Dict>,
) -> Result<(), NoMemory>
    ensures { OnOk result (text.new.items ≡ text.old.items ++ spec.dictionary_part regions.now (option_copied dict.entry)) }
{
    match dict {
        None => Ok(()),
        Some(dict) => push_entries(text, regions, dict.entries()),
    }
}
