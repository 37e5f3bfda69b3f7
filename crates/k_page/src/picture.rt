//! The picture of the contexts: a box for each, under that of the context around it, as wide as its share of the work.
ghost use Rattle.std.specs.Prelude.{◌≡◌, ◌++◌, IfOk, OnOk};
ghost use Rattle.std.specs.List.{flat_map};
ghost use Rattle.k_page.specs.Picture as spec;

use crate::amount::{WIDTH, push_sums, scaled, shade, shade_of};
use crate::cells::{push_name, region_at};
use crate::markup::{
    Attribute, Tag, begin, end_attributes, finish, push_amount, push_numbered, push_word,
    push_words, start, start_with,
};
use crate::prose::{Prose, push_prose, words};
use crate::tiles::{Tile, levels};
use k_num::NoMemory;
use k_optab::Region;
use k_plan::Pick;
use k_selfpar::Context;
use k_text::{push, push_place};

/// How high a box is, in the units of the picture.
const HEIGHT: u64 = 20;

/// Whether a context of this number is picked.
fn is_picked(picks: &[Pick], number: u64) -> bool
    ensures { result ≡ spec.is_picked picks.now number }
{
    picks.iter().any(|pick| u64::from(pick.context) == number)
}

/// What is written behind what is picked.
pub(crate) fn mark_word(picked: bool) -> &'static str
    ensures { result.now ≡ spec.mark_word picked }
{
    if picked { " picked" } else { "" }
}

/// Where a box ends, in the units of work.
fn end_of(tile: &Tile) -> Result<u64, NoMemory>
    ensures { IfOk result (λ end. end ≡ spec.end_of tile.now) }
{
    match tile.start.checked_add(tile.context.work) {
        Some(end) => Ok(end),
        None => Err(NoMemory),
    }
}

/// How wide a box is that begins here.
fn width_of(tile: &Tile, whole: u64, left: u64) -> Result<u64, NoMemory>
    ensures { IfOk result (λ width. width ≡ spec.width_from tile.now whole left) }
{
    let end = end_of(tile)?;
    let right = scaled(end, whole, WIDTH)?;
    Ok(right.saturating_sub(left))
}

/// How many units of the picture levels take.
fn height_of(levels: u64) -> Result<u64, NoMemory>
    ensures { IfOk result (λ height. height ≡ spec.height_of levels) }
{
    match levels.checked_mul(HEIGHT) {
        Some(height) => Ok(height),
        None => Err(NoMemory),
    }
}

/// What a box is of, with its numbers.
#[tactic(auto, unfolding(crate::specs::Picture::label))]
fn push_label(
    text: &mut Vec<u8>,
    context: &Context,
    region: &Region,
    picked: bool,
) -> Result<(), NoMemory>
    ensures { OnOk result (text.new.items ≡ text.old.items ++ spec.label context.now region.now picked) }
{
    push_name(text, region)?;
    push(text, " ")?;
    push_place(text, region.place)?;
    push_sums(
        text,
        context.instances,
        context.work,
        context.path,
        &context.sp,
    )?;
    push(text, mark_word(picked))
}

/// What tells of a box where it is pointed at.
#[tactic(auto, unfolding(crate::specs::Picture::title))]
fn push_title(
    text: &mut Vec<u8>,
    context: &Context,
    region: &Region,
    picked: bool,
) -> Result<(), NoMemory>
    ensures { OnOk result (text.new.items ≡ text.old.items ++ spec.title context.now region.now picked) }
{
    start(text, Tag::Title)?;
    push_label(text, context, region, picked)?;
    finish(text, Tag::Title)
}

/// The shade of a box, and whether it is outlined.
#[tactic(auto, unfolding(crate::specs::Picture::look))]
fn push_look(text: &mut Vec<u8>, context: &Context, picked: bool) -> Result<(), NoMemory>
    ensures { OnOk result (text.new.items ≡ text.old.items ++ spec.look context.now picked) }
{
    push_words(
        text,
        Attribute::Class,
        shade(&context.sp),
        mark_word(picked),
    )
}

/// The shape of a box.
#[tactic(auto, unfolding(crate::specs::Picture::shape))]
fn push_shape(text: &mut Vec<u8>, context: &Context, picked: bool) -> Result<(), NoMemory>
    ensures { OnOk result (text.new.items ≡ text.old.items ++ spec.shape context.now picked) }
{
    begin(text, Tag::Shape)?;
    push_look(text, context, picked)?;
    push_word(text, Attribute::Width, "100%")?;
    push_word(text, Attribute::Height, "100%")?;
    end_attributes(text)?;
    finish(text, Tag::Shape)
}

/// What stands in a box.
#[tactic(auto, unfolding(crate::specs::Picture::caption))]
fn push_caption(
    text: &mut Vec<u8>,
    context: &Context,
    region: &Region,
    picked: bool,
) -> Result<(), NoMemory>
    ensures { OnOk result (text.new.items ≡ text.old.items ++ spec.caption context.now region.now picked) }
{
    begin(text, Tag::Label)?;
    push_word(text, Attribute::Left, "4")?;
    push_word(text, Attribute::Top, "15")?;
    end_attributes(text)?;
    push_label(text, context, region, picked)?;
    finish(text, Tag::Label)
}

/// Where a box stands, and how large it is.
#[tactic(auto, unfolding(crate::specs::Picture::frame))]
fn push_frame(text: &mut Vec<u8>, left: u64, top: u64, width: u64) -> Result<(), NoMemory>
    ensures { OnOk result (text.new.items ≡ text.old.items ++ spec.frame left top width) }
{
    push_amount(text, Attribute::Left, left)?;
    push_amount(text, Attribute::Top, top)?;
    push_amount(text, Attribute::Width, width)?;
    push_word(text, Attribute::Height, "20")
}

/// What a box has in it.
#[tactic(auto, unfolding(crate::specs::Picture::content))]
fn push_content(
    text: &mut Vec<u8>,
    context: &Context,
    region: &Region,
    picked: bool,
) -> Result<(), NoMemory>
    ensures { OnOk result (text.new.items ≡ text.old.items ++ spec.content context.now region.now picked) }
{
    push_title(text, context, region, picked)?;
    push_shape(text, context, picked)?;
    push_caption(text, context, region, picked)
}

/// A box of this place and width.
#[tactic(auto, unfolding(crate::specs::Picture::box_of))]
fn push_box_of(
    text: &mut Vec<u8>,
    tile: &Tile,
    region: &Region,
    picked: bool,
    left: u64,
    width: u64,
) -> Result<(), NoMemory>
    ensures { OnOk result (text.new.items ≡ text.old.items ++ spec.box_of tile.now region.now picked left width) }
{
    let top = height_of(tile.level)?;
    begin(text, Tag::Picture)?;
    push_frame(text, left, top, width)?;
    end_attributes(text)?;
    push_content(text, &tile.context, region, picked)?;
    finish(text, Tag::Picture)
}

/// A box of this region; nothing where it would be narrower than a unit.
#[tactic(auto, unfolding(crate::specs::Picture::box_in))]
fn push_box_in(
    text: &mut Vec<u8>,
    tile: &Tile,
    region: &Region,
    picked: bool,
    whole: u64,
) -> Result<(), NoMemory>
    ensures { OnOk result (text.new.items ≡ text.old.items ++ spec.box_in whole picked tile.now region.now) }
{
    let left = scaled(tile.start, whole, WIDTH)?;
    let width = width_of(tile, whole, left)?;
    if width == 0 {
        return Ok(());
    }
    push_box_of(text, tile, region, picked, left, width)
}

/// The box of a tile, whose context names a region of the list.
#[tactic(auto, unfolding(crate::specs::Picture::tile_box))]
fn push_box(
    text: &mut Vec<u8>,
    regions: &[Region],
    picks: &[Pick],
    whole: u64,
    tile: &Tile,
) -> Result<(), NoMemory>
    ensures { OnOk result (text.new.items ≡ text.old.items ++ spec.tile_box regions.now picks.now whole tile.now) }
{
    match region_at(regions, tile.context.region) {
        None => Ok(()),
        Some(region) => push_box_in(text, tile, region, is_picked(picks, tile.number), whole),
    }
}

/// The boxes of tiles.
fn push_boxes(
    text: &mut Vec<u8>,
    regions: &[Region],
    picks: &[Pick],
    whole: u64,
    tiles: &[Tile],
) -> Result<(), NoMemory>
    ensures { OnOk result (text.new.items ≡ text.old.items ++ flat_map (spec.tile_box regions.now picks.now whole) tiles.now) }
{
    for tile in tiles {
        push_box(text, regions, picks, whole, tile)?;
    }
    Ok(())
}

/// A text of the page under a name of its own.
#[tactic(auto, unfolding(crate::specs::Picture::named_prose))]
fn push_named_prose(text: &mut Vec<u8>, tag: Tag, own: &str, prose: Prose) -> Result<(), NoMemory>
    ensures { OnOk result (text.new.items ≡ text.old.items ++ spec.named_prose tag own.now prose) }
{
    start_with(text, tag, Attribute::Name, own)?;
    push(text, words(prose))?;
    finish(text, tag)
}

/// The title of the picture, and what it is, for who can't see it.
fn push_picture_names(text: &mut Vec<u8>) -> Result<(), NoMemory>
    ensures { OnOk result (text.new.items ≡ text.old.items ++ spec.picture_title ++ spec.picture_text) }
{
    push_named_prose(text, Tag::Title, "picture-title", Prose::PictureTitle)?;
    push_named_prose(text, Tag::Description, "picture-text", Prose::PictureText)
}

/// The front of the picture: its size, and what names it.
#[tactic(auto, unfolding(crate::specs::Picture::picture_front))]
fn push_front(text: &mut Vec<u8>, height: u64) -> Result<(), NoMemory>
    ensures { OnOk result (text.new.items ≡ text.old.items ++ spec.picture_front height) }
{
    push_word(text, Attribute::Role, "img")?;
    push_word(text, Attribute::LabelledBy, "picture-title picture-text")?;
    push_numbered(text, Attribute::View, "0 0 1200 ", height)
}

/// The picture of these tiles.
#[tactic(auto, unfolding(crate::specs::Picture::picture))]
pub(crate) fn push_picture(
    text: &mut Vec<u8>,
    regions: &[Region],
    picks: &[Pick],
    whole: u64,
    tiles: &[Tile],
) -> Result<(), NoMemory>
    ensures { OnOk result (text.new.items ≡ text.old.items ++ spec.picture regions.now picks.now whole tiles.now) }
{
    let levels = levels(tiles)?;
    let height = height_of(levels)?;
    begin(text, Tag::Picture)?;
    push_front(text, height)?;
    end_attributes(text)?;
    push_picture_names(text)?;
    push_boxes(text, regions, picks, whole, tiles)?;
    finish(text, Tag::Picture)
}

/// The shade of so many whole times, and what it stands for.
#[tactic(auto, unfolding(crate::specs::Picture::shade_cell))]
fn push_shade(text: &mut Vec<u8>, times: u64, prose: Prose) -> Result<(), NoMemory>
    ensures { OnOk result (text.new.items ≡ text.old.items ++ spec.shade_cell times prose) }
{
    start_with(text, Tag::Cell, Attribute::Class, shade_of(times))?;
    push(text, words(prose))?;
    finish(text, Tag::Cell)
}

/// The shades in a line.
#[tactic(auto, unfolding(crate::specs::Picture::shades))]
fn push_shades(text: &mut Vec<u8>) -> Result<(), NoMemory>
    ensures { OnOk result (text.new.items ≡ text.old.items ++ spec.shades) }
{
    push_shade(text, 1, Prose::BelowTwo)?;
    push_shade(text, 2, Prose::BelowFive)?;
    push_shade(text, 5, Prose::BelowTwentyFive)?;
    push_shade(text, 25, Prose::BelowHundred)?;
    push_shade(text, 100, Prose::HundredAndMore)
}

/// The shades as a line of a table.
#[tactic(auto, unfolding(crate::specs::Picture::shade_row))]
fn push_shade_row(text: &mut Vec<u8>) -> Result<(), NoMemory>
    ensures { OnOk result (text.new.items ≡ text.old.items ++ spec.shade_row) }
{
    start(text, Tag::Row)?;
    push_shades(text)?;
    finish(text, Tag::Row)
}

/// What the shades of the picture stand for.
#[tactic(auto, unfolding(crate::specs::Picture::legend))]
pub(crate) fn push_legend(text: &mut Vec<u8>) -> Result<(), NoMemory>
    ensures { OnOk result (text.new.items ≡ text.old.items ++ spec.legend) }
{
    start(text, Tag::Table)?;
    push_prose(text, Tag::Caption, Prose::ShadesCaption)?;
    push_shade_row(text)?;
    finish(text, Tag::Table)
}
