//! The source of a page, line by line, with what begins on each line beside it.
ghost use Rattle.std.specs.Prelude.{◌≡◌, ◌<◌, ◌≤◌, ◌++◌, drop, length, take, IfSome, OnOk, option_copied, option_map};
ghost use Rattle.std.specs.List.{flat_map};
ghost use Rattle.k_page.specs.Source as spec;

use crate::amount::{push_share, push_sums};
use crate::cells::{context_at, push_head_cell, push_name, region_at};
use crate::escape::push_escaped;
use crate::markup::{
    Attribute, Tag, begin, end_attributes, finish, push_amount, push_element, push_numbered, start,
    start_with,
};
use crate::prose::{Prose, words};
use k_num::NoMemory;
use k_optab::Region;
use k_plan::Pick;
use k_selfpar::{Context, Row};
use k_text::{push, push_number};

/// How many bytes stand before the first newline.
fn line_span(text: &[u8]) -> usize
    ensures found { result ≡ spec.line_span text.now }
    ensures within { result ≤ length text.now }
{
    let mut count = 0;
    let mut rest = text;
    while let Some((byte, behind)) = rest.split_first() {
        if *byte == b'\n' {
            return count;
        }
        count += 1;
        rest = behind;
    }
    count
}

/// At most so many of the first bytes.
fn front(text: &[u8], count: usize) -> &[u8]
    ensures { result.now ≡ take count text.now }
{
    if count < text.len() {
        &text[..count]
    } else {
        text
    }
}

/// What stands behind the first line of a text, and its newline.
fn behind_line(text: &[u8]) -> &[u8]
    ensures { result.now ≡ spec.behind_line text.now }
{
    let mut rest = text;
    while let Some((byte, behind)) = rest.split_first() {
        if *byte == b'\n' {
            return behind;
        }
        rest = behind;
    }
    rest
}

/// Whether a pick's context is of a region.
fn is_of(contexts: &[Context], region: u32, pick: &Pick) -> bool
    ensures { result ≡ spec.is_of contexts.now region pick.now }
{
    match context_at(contexts, pick.context) {
        None => false,
        Some(context) => context.region == region,
    }
}

/// Whether a region is picked on any way to it.
fn is_region_picked(contexts: &[Context], picks: &[Pick], region: u32) -> bool
    ensures { result ≡ spec.is_region_picked contexts.now picks.now region }
{
    picks.iter().any(|pick| is_of(contexts, region, pick))
}

/// The line on which the region of a row begins; 0 where there is no such region.
fn begins(regions: &[Region], row: &Row) -> u32
    ensures { result ≡ spec.begins regions.now row.now }
{
    match region_at(regions, row.region) {
        None => 0,
        Some(region) => region.place.line,
    }
}

/// How many rows at the front begin on a line up to this one.
fn count_to(regions: &[Region], line: u64, rows: &[Row]) -> usize
    ensures found { result ≡ spec.count_to regions.now line rows.now }
    ensures within { result ≤ length rows.now }
{
    let mut count = 0;
    let mut rest = rows;
    while let Some((row, later)) = rest.split_first() {
        if u64::from(begins(regions, row)) > line {
            return count;
        }
        count += 1;
        rest = later;
    }
    count
}

/// A bar of the share of a row.
#[tactic(auto, unfolding(crate::specs::Source::bar))]
fn push_bar(text: &mut Vec<u8>, work: u64, whole: u64) -> Result<(), NoMemory>
    ensures { OnOk result (text.new.items ≡ text.old.items ++ spec.bar work whole) }
{
    begin(text, Tag::Meter)?;
    push_amount(text, Attribute::Most, whole)?;
    push_amount(text, Attribute::Amount, work)?;
    end_attributes(text)?;
    push_share(text, work, whole)?;
    finish(text, Tag::Meter)
}

/// That a row is picked, where it is.
fn push_mark(text: &mut Vec<u8>, picked: bool) -> Result<(), NoMemory>
    ensures { OnOk result (text.new.items ≡ text.old.items ++ spec.mark picked) }
{
    if picked {
        push_element(text, Tag::Strong, " picked")
    } else {
        Ok(())
    }
}

/// What is written beside a line of a row of this region.
#[tactic(auto, unfolding(crate::specs::Source::note))]
fn push_note(
    text: &mut Vec<u8>,
    whole: u64,
    picked: bool,
    row: &Row,
    region: &Region,
) -> Result<(), NoMemory>
    ensures { OnOk result (text.new.items ≡ text.old.items ++ spec.note whole picked row.now region.now) }
{
    start(text, Tag::Paragraph)?;
    push_bar(text, row.work, whole)?;
    push_name(text, region)?;
    push_sums(text, row.instances, row.work, row.path, &row.sp)?;
    push_mark(text, picked)?;
    finish(text, Tag::Paragraph)
}

/// What is written beside a line of a row, which names a region of the list.
fn push_note_of(
    text: &mut Vec<u8>,
    regions: &[Region],
    contexts: &[Context],
    picks: &[Pick],
    whole: u64,
    row: &Row,
) -> Result<(), NoMemory>
    ensures { OnOk result (text.new.items ≡ text.old.items ++ spec.note_of regions.now contexts.now picks.now whole row.now) }
{
    match region_at(regions, row.region) {
        None => Ok(()),
        Some(region) => {
            let picked = is_region_picked(contexts, picks, row.region);
            push_note(text, whole, picked, row, region)
        }
    }
}

/// What is written beside a line of these rows.
fn push_notes(
    text: &mut Vec<u8>,
    regions: &[Region],
    contexts: &[Context],
    picks: &[Pick],
    whole: u64,
    rows: &[Row],
) -> Result<(), NoMemory>
    ensures { OnOk result (text.new.items ≡ text.old.items ++ flat_map (spec.note_of regions.now contexts.now picks.now whole) rows.now) }
{
    for row in rows {
        push_note_of(text, regions, contexts, picks, whole, row)?;
    }
    Ok(())
}

/// The number of a line.
#[tactic(auto, unfolding(crate::specs::Source::line_head))]
fn push_line_head(text: &mut Vec<u8>, number: u64) -> Result<(), NoMemory>
    ensures { OnOk result (text.new.items ≡ text.old.items ++ spec.line_head number) }
{
    start_with(text, Tag::HeadCell, Attribute::Scope, "row")?;
    push_number(text, number)?;
    finish(text, Tag::HeadCell)
}

/// The text of a line.
#[tactic(auto, unfolding(crate::specs::Source::line_text))]
fn push_line_text(text: &mut Vec<u8>, line: &[u8]) -> Result<(), NoMemory>
    ensures { OnOk result (text.new.items ≡ text.old.items ++ spec.line_text line.now) }
{
    start_with(text, Tag::Cell, Attribute::Class, "w")?;
    start(text, Tag::Code)?;
    push_escaped(text, line)?;
    finish(text, Tag::Code)?;
    finish(text, Tag::Cell)
}

/// What stands beside a line.
#[tactic(auto, unfolding(crate::specs::Source::line_notes))]
fn push_line_notes(
    text: &mut Vec<u8>,
    regions: &[Region],
    contexts: &[Context],
    picks: &[Pick],
    whole: u64,
    rows: &[Row],
) -> Result<(), NoMemory>
    ensures { OnOk result (text.new.items ≡ text.old.items ++ spec.line_notes regions.now contexts.now picks.now whole rows.now) }
{
    start_with(text, Tag::Cell, Attribute::Class, "w")?;
    push_notes(text, regions, contexts, picks, whole, rows)?;
    finish(text, Tag::Cell)
}

/// The front of a line, by which links find it.
#[tactic(auto, unfolding(crate::specs::Markup::started_with))]
fn start_line(text: &mut Vec<u8>, number: u64) -> Result<(), NoMemory>
    ensures { OnOk result (text.new.items ≡ text.old.items ++ spec.line_front number) }
{
    begin(text, Tag::Row)?;
    push_numbered(text, Attribute::Name, "L", number)?;
    end_attributes(text)
}

/// A line, with these rows beside it.
#[tactic(auto, unfolding(crate::specs::Source::line_row))]
fn push_line(
    text: &mut Vec<u8>,
    regions: &[Region],
    contexts: &[Context],
    picks: &[Pick],
    whole: u64,
    number: u64,
    rows: &[Row],
    line: &[u8],
) -> Result<(), NoMemory>
    ensures { OnOk result (text.new.items ≡ text.old.items ++ spec.line_row regions.now contexts.now picks.now whole number rows.now line.now) }
{
    start_line(text, number)?;
    push_line_head(text, number)?;
    push_line_text(text, line)?;
    push_line_notes(text, regions, contexts, picks, whole, rows)?;
    finish(text, Tag::Row)
}

/// The rows at the front, up to so many.
fn rows_front(rows: &[Row], count: usize) -> &[Row]
    requires { count ≤ length rows.now }
    ensures { result.now ≡ take count rows.now }
{
    &rows[..count]
}

/// The rows behind so many.
fn rows_behind(rows: &[Row], count: usize) -> &[Row]
    requires { count ≤ length rows.now }
    ensures { result.now ≡ drop count rows.now }
{
    &rows[count..]
}

/// The lines of a source.
#[tactic(auto, using(crate::proofs::Lines::behind_shorter))]
fn push_lines(
    text: &mut Vec<u8>,
    regions: &[Region],
    contexts: &[Context],
    picks: &[Pick],
    whole: u64,
    rows: &[Row],
    source: &[u8],
) -> Result<(), NoMemory>
    ensures { OnOk result (text.new.items ≡ text.old.items
        ++ spec.line_rows regions.now contexts.now picks.now whole 1 rows.now (spec.lines source.now)) }
{
    let mut number: usize = 1;
    let mut later = rows;
    let mut rest = source;
    while !rest.is_empty() {
        let count = count_to(regions, number as u64, later);
        let line = front(rest, line_span(rest));
        push_line(
            text,
            regions,
            contexts,
            picks,
            whole,
            number as u64,
            rows_front(later, count),
            line,
        )?;
        later = rows_behind(later, count);
        rest = behind_line(rest);
        number += 1;
    }
    Ok(())
}

/// The heads of the columns.
#[tactic(auto, unfolding(crate::specs::Source::heads))]
fn push_heads(text: &mut Vec<u8>) -> Result<(), NoMemory>
    ensures { OnOk result (text.new.items ≡ text.old.items ++ spec.heads) }
{
    start(text, Tag::Row)?;
    push_head_cell(text, "line")?;
    push_head_cell(text, "source")?;
    push_head_cell(text, words(Prose::SourceNotes))?;
    finish(text, Tag::Row)
}

/// The source as a table.
#[tactic(auto, unfolding(crate::specs::Source::source_table))]
pub(crate) fn push_source(
    text: &mut Vec<u8>,
    regions: &[Region],
    contexts: &[Context],
    picks: &[Pick],
    whole: u64,
    rows: &[Row],
    source: &[u8],
) -> Result<(), NoMemory>
    ensures { OnOk result (text.new.items ≡ text.old.items ++ spec.source_table regions.now contexts.now picks.now whole rows.now source.now) }
{
    start(text, Tag::Table)?;
    push_element(text, Tag::Caption, "The source")?;
    push_heads(text)?;
    push_lines(text, regions, contexts, picks, whole, rows, source)?;
    finish(text, Tag::Table)
}
