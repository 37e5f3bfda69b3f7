//! What is inserted at the places of regions.
ghost use Rattle.std.specs.Prelude.{◌≡◌, ◌++◌, slice_get, option_copied, IfOk, OnOk};
ghost use Rattle.k_pragma.specs.Insertions as spec;

use crate::pragmas::Pragma;
use k_num::{NoMemory, Place, Seq};
use k_optab::{Region, RegionKind};
use k_selfpar::Row;
use k_text::{push, push_named};
use k_tree::Token;
use std::alloc::Global;

/// What is inserted at a place: a comment, and behind it the line of a loop where the source spells `for` there.
#[derive(Drop)]
pub struct Note {
    pub place: Place,
    pub comment: Seq<u8>,
    pub line: Seq<u8>,
}

/// The comment on a region of this kind with a row.
fn comment(alloc: Global, kind: &str, row: &Row) -> Result<Vec<u8>, NoMemory>
    ensures { IfOk result (λ text. text.items ≡ spec.comment kind.now row.now) }
{
    let mut text = Vec::new(alloc);
    push(&mut text, "/* kremlin: ")?;
    push(&mut text, kind)?;
    push_named(&mut text, " n=", row.instances)?;
    push_named(&mut text, " work=", row.work)?;
    push_named(&mut text, " path=", row.path)?;
    push_named(&mut text, " sp=", row.sp.num())?;
    push_named(&mut text, "/", row.sp.den())?;
    push(&mut text, " */")?;
    Ok(text)
}

/// The line of the loop of a region; where it has none, nothing.
fn line_of(region: u32, pragmas: &[Pragma]) -> &[u8]
    ensures { result.now ≡ spec.line_of region pragmas.now }
{
    for pragma in pragmas {
        if pragma.region == u64::from(region) {
            return pragma.text.as_slice();
        }
    }
    &[]
}

/// Whether a place comes before another.
fn is_before(one: Place, other: Place) -> bool
    ensures { result ≡ spec.is_before one other }
{
    one.line < other.line || (one.line == other.line && one.column < other.column)
}

/// The first place, if it comes before the second; else a third one.
fn if_before(one: Place, place: Place, other: Place) -> Place
    ensures { result ≡ spec.if_before one place other }
{
    if is_before(one, place) { one } else { other }
}

/// The place of the last token before this one.
fn token_before(place: Place, tokens: &[Token]) -> Place
    ensures { result ≡ spec.token_before spec.nowhere place tokens.now }
{
    let mut found = Place { line: 0, column: 0 };
    for token in tokens {
        found = if_before(token.place, place, found);
    }
    found
}

/// Whether a place comes between two others.
fn is_between(first: Place, last: Place, place: Place) -> bool
    ensures { result ≡ spec.is_between first last place }
{
    is_before(first, place) && is_before(place, last)
}

/// Whether a line of a `#pragma` stands before a place and behind the token before it.
fn follows_pragma(lines: &[Place], tokens: &[Token], place: Place) -> bool
    ensures { result ≡ spec.follows_pragma lines.now tokens.now place }
{
    let before = token_before(place, tokens);
    lines.iter().any(|line| is_between(before, place, *line))
}

/// The line of the loop of a region at this place, unless a line of a `#pragma` stands there.
fn line_at<'a>(
    lines: &[Place],
    tokens: &[Token],
    place: Place,
    region: u32,
    pragmas: &'a [Pragma],
) -> &'a [u8]
    ensures { result.now ≡ spec.line_at lines.now tokens.now place region pragmas.now }
{
    if follows_pragma(lines, tokens, place) {
        &[]
    } else {
        line_of(region, pragmas)
    }
}

/// Notes what is inserted at a place: a comment on a region of this kind with a row, and behind it this line.
fn push_note(
    alloc: Global,
    kind: &str,
    place: Place,
    row: &Row,
    line: &[u8],
    notes: &mut Vec<Note>,
) -> Result<(), NoMemory>
    ensures { OnOk result (notes.new.items ≡ notes.old.items ++ spec.a_note place (spec.comment kind.now row.now) line.now) }
{
    let comment = comment(alloc, kind, row)?;
    let line = Seq::copy_of(alloc, line)?;
    notes.push(Note {
        place,
        comment: Seq::from_vec(comment),
        line,
    })?;
    Ok(())
}

/// Notes what is inserted at the place of a region that has this row.
fn note_by(
    alloc: Global,
    lines: &[Place],
    tokens: &[Token],
    region: &Region,
    pragmas: &[Pragma],
    row: &Row,
    notes: &mut Vec<Note>,
) -> Result<(), NoMemory>
    ensures { OnOk result (notes.new.items ≡ notes.old.items ++ spec.note_by lines.now tokens.now region.now.kind region.now.place pragmas.now row.now) }
{
    match region.kind {
        RegionKind::Func => push_note(alloc, "func", region.place, row, &[], notes),
        RegionKind::Loop => {
            let line = line_at(lines, tokens, region.place, row.region, pragmas);
            push_note(alloc, "loop", region.place, row, line, notes)
        }
        RegionKind::Body => Ok(()),
    }
}

/// The region of a number.
fn region_at(regions: &[Region], number: u32) -> Option<&Region>
    ensures { option_copied result ≡ slice_get regions.now number }
{
    regions.get(number as usize)
}

/// Notes what is inserted at the place of the region that a row names.
fn note_for(
    alloc: Global,
    lines: &[Place],
    tokens: &[Token],
    regions: &[Region],
    pragmas: &[Pragma],
    row: &Row,
    notes: &mut Vec<Note>,
) -> Result<(), NoMemory>
    ensures { OnOk result (notes.new.items ≡ notes.old.items ++ spec.note_of lines.now tokens.now regions.now pragmas.now row.now) }
{
    match region_at(regions, row.region) {
        None => Ok(()),
        Some(region) => note_by(alloc, lines, tokens, region, pragmas, row, notes),
    }
}

/// What is inserted at the places of the regions that rows name.
#[tactic(auto, unfolding(crate::specs::Insertions::notes_of))]
pub(crate) fn notes_of(
    alloc: Global,
    lines: &[Place],
    tokens: &[Token],
    regions: &[Region],
    pragmas: &[Pragma],
    rows: &[Row],
) -> Result<Vec<Note>, NoMemory>
    ensures { IfOk result (λ notes. notes.items ≡ spec.notes_of lines.now tokens.now regions.now pragmas.now rows.now) }
{
    let mut notes = Vec::new(alloc);
    for row in rows {
        note_for(alloc, lines, tokens, regions, pragmas, row, &mut notes)?;
    }
    Ok(notes)
}
