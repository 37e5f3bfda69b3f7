//! The bytes of a source with what is inserted.
ghost use Rattle.std.specs.Prelude.{◌≡◌, ◌≤◌, ◌<◌, ◌^◌, ◌++◌, length, IfOk, OnOk};
ghost use Rattle.std.specs.List.{flat_map};
ghost use Rattle.k_pragma.specs.Insertions as spec;

use crate::names::is_in_word;
use crate::notes::Note;
use k_num::{NoMemory, Place};
use std::alloc::Global;

/// Whether two places are one.
fn same_place(one: Place, other: Place) -> bool
    ensures { result ≡ spec.same_place one other }
{
    one.line == other.line && one.column == other.column
}

/// Whether a text goes on with a word.
fn goes_on(text: &[u8]) -> bool
    ensures { result ≡ spec.goes_on text.now }
{
    match text.split_first() {
        None => false,
        Some((byte, _)) => is_in_word(*byte),
    }
}

/// Whether a text spells `for` at its front.
fn spells_for(text: &[u8]) -> bool
    ensures { result ≡ spec.spells_for text.now }
{
    match text {
        [first, second, third, rest @ ..] => {
            *first == b'f' && (*second == b'o' && (*third == b'r' && !goes_on(rest)))
        }
        _ => false,
    }
}

/// Bytes at the end of a text.
fn append(text: &mut Vec<u8>, more: &[u8]) -> Result<(), NoMemory>
    ensures { OnOk result (text.new.items ≡ text.old.items ++ more.now) }
{
    text.extend_from_slice(more)?;
    Ok(())
}

/// What is inserted at a place before this source, if it is the note's.
fn insert_by(place: Place, source: &[u8], note: &Note, text: &mut Vec<u8>) -> Result<(), NoMemory>
    ensures { OnOk result (text.new.items ≡ text.old.items ++ spec.inserted_by place source.now note.now) }
{
    if same_place(note.place, place) {
        append(text, note.comment.as_slice())?;
        if spells_for(source) {
            append(text, note.line.as_slice())?;
        }
    }
    Ok(())
}

/// What is inserted at a place before this source.
fn inserted_at(
    alloc: Global,
    place: Place,
    source: &[u8],
    notes: &[Note],
) -> Result<Vec<u8>, NoMemory>
    ensures { IfOk result (λ text. text.items ≡ spec.inserted_at place source.now notes.now) }
{
    let mut text = Vec::new(alloc);
    for note in notes {
        insert_by(place, source, note, &mut text)?;
    }
    Ok(text)
}

/// Puts what is inserted behind a byte: behind a `/` one space stands before it.
fn push_parted(before: u8, inserted: &[u8], text: &mut Vec<u8>) -> Result<(), NoMemory>
    ensures { OnOk result (text.new.items ≡ text.old.items ++ spec.parted before inserted.now) }
{
    if inserted.is_empty() {
        return Ok(());
    }
    if before == b'/' {
        text.push(b' ')?;
    }
    append(text, inserted)
}

/// The place behind a byte.
fn behind(place: Place, byte: u8) -> Place
    requires line { place.line < 2 ^ 30 }
    requires column { place.column < 2 ^ 30 }
    ensures { result ≡ spec.behind place byte }
{
    if byte == b'\n' {
        Place {
            line: place.line + 1,
            column: 1,
        }
    } else {
        Place {
            line: place.line,
            column: place.column + 1,
        }
    }
}

/// The bytes of a source with what is inserted at its places.
#[tactic(auto, using(crate::proofs::Room::line_room, crate::proofs::Room::column_room))]
pub(crate) fn with_notes(alloc: Global, notes: &[Note], source: &[u8]) -> Result<Vec<u8>, NoMemory>
    requires { length source.now ≤ 1048576 }
    ensures { IfOk result (λ text. text.items ≡ spec.with_notes notes.now spec.beginning 0 source.now) }
{
    let mut text = Vec::new(alloc);
    let mut place = Place { line: 1, column: 1 };
    let mut before: u8 = 0;
    let mut rest = source;
    while let Some((byte, later)) = rest.split_first() {
        let inserted = inserted_at(alloc, place, rest, notes)?;
        push_parted(before, inserted.as_slice(), &mut text)?;
        text.push(*byte)?;
        place = behind(place, *byte);
        before = *byte;
        rest = later;
    }
    Ok(text)
}
