//! Names, places and the cells of tables.
ghost use Rattle.std.specs.Prelude.{◌≡◌, ◌++◌, slice_get, OnOk, option_copied};
ghost use Rattle.k_page.specs.Cells as spec;
ghost use Rattle.k_text.specs.Texts.{kind_text};

use crate::escape::push_escaped;
use crate::markup::{
    Attribute, Tag, begin, end_attributes, finish, push_numbered, start, start_with,
};
use itoa::Integer;
use k_num::NoMemory;
use k_optab::{Region, RegionKind};
use k_selfpar::Context;
use k_text::{push, push_number};

/// The region of a number.
pub(crate) fn region_at(regions: &[Region], number: u32) -> Option<&Region>
    ensures { option_copied result ≡ slice_get regions.now number }
{
    regions.get(number as usize)
}

/// The context of a number.
pub(crate) fn context_at(contexts: &[Context], number: u32) -> Option<&Context>
    ensures { option_copied result ≡ slice_get contexts.now number }
{
    contexts.get(number as usize)
}

/// The word for a kind of region.
fn kind_name(kind: RegionKind) -> &'static str
    ensures { result.now ≡ kind_text kind }
{
    match kind {
        RegionKind::Func => "func",
        RegionKind::Loop => "loop",
        RegionKind::Body => "body",
    }
}

/// The kind and the function of a region.
#[tactic(auto, unfolding(crate::specs::Cells::name))]
pub(crate) fn push_name(text: &mut Vec<u8>, region: &Region) -> Result<(), NoMemory>
    ensures { OnOk result (text.new.items ≡ text.old.items ++ spec.name region.now) }
{
    push(text, kind_name(region.kind))?;
    push(text, " ")?;
    push_escaped(text, region.func.as_str().as_bytes())
}

/// The head of a column.
#[tactic(auto, unfolding(crate::specs::Cells::head_cell))]
pub(crate) fn push_head_cell(text: &mut Vec<u8>, words: &str) -> Result<(), NoMemory>
    ensures { OnOk result (text.new.items ≡ text.old.items ++ spec.head_cell words.now) }
{
    start_with(text, Tag::HeadCell, Attribute::Scope, "col")?;
    push(text, words)?;
    finish(text, Tag::HeadCell)
}

/// A cell of a number.
#[tactic(auto, unfolding(crate::specs::Cells::text_cell))]
pub(crate) fn push_number_cell<I: Integer>(text: &mut Vec<u8>, number: I) -> Result<(), NoMemory>
    ensures { OnOk result (text.new.items ≡ text.old.items ++ spec.text_cell (I.text number)) }
{
    start(text, Tag::Cell)?;
    push_number(text, number)?;
    finish(text, Tag::Cell)
}

/// A link to a line of the source.
#[tactic(auto, unfolding(crate::specs::Cells::line_link))]
fn push_line_link(text: &mut Vec<u8>, line: u32) -> Result<(), NoMemory>
    ensures { OnOk result (text.new.items ≡ text.old.items ++ spec.line_link line) }
{
    begin(text, Tag::Link)?;
    push_numbered(text, Attribute::Target, "#L", line)?;
    end_attributes(text)?;
    push_number(text, line)?;
    finish(text, Tag::Link)
}

/// A cell of a link to a line of the source.
#[tactic(auto, unfolding(crate::specs::Cells::line_cell))]
pub(crate) fn push_line_cell(text: &mut Vec<u8>, line: u32) -> Result<(), NoMemory>
    ensures { OnOk result (text.new.items ≡ text.old.items ++ spec.line_cell line) }
{
    start(text, Tag::Cell)?;
    push_line_link(text, line)?;
    finish(text, Tag::Cell)
}

/// The head of a line of a table: the region that it is about.
#[tactic(auto, unfolding(crate::specs::Cells::name_cell))]
pub(crate) fn push_name_cell(text: &mut Vec<u8>, region: &Region) -> Result<(), NoMemory>
    ensures { OnOk result (text.new.items ≡ text.old.items ++ spec.name_cell region.now) }
{
    start_with(text, Tag::HeadCell, Attribute::Scope, "row")?;
    push_name(text, region)?;
    finish(text, Tag::HeadCell)
}
