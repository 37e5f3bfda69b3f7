//! Lines of the source, with marks under places.
ghost use Rattle.std.specs.Prelude.{◌≡◌, ◌++◌, ◌≤◌, OnOk, drop, length, take};
ghost use Rattle.k_advise_text.specs.Sources as spec;

use crate::numbers::push_right;
use k_num::{NoMemory, Place};
use k_scan::name;
use k_text::{push, push_number};
use std::alloc::Global;

/// How many bytes stand before the first newline.
fn line_span(text: &[u8]) -> usize
    ensures found { result ≡ spec.line_span text.now }
    ensures within { result ≤ length text.now }
{
    let mut count = 0;
    let mut rest = text;
    while let Some((byte, behind)) = rest.split_first() {
        if *byte == b'\n' {
            return count;
        }
        count += 1;
        rest = behind;
    }
    count
}

/// What stands behind the first line of a text, and its newline.
fn behind_line(text: &[u8]) -> &[u8]
    ensures { result.now ≡ spec.behind_line text.now }
{
    let mut rest = text;
    while let Some((byte, behind)) = rest.split_first() {
        if *byte == b'\n' {
            return behind;
        }
        rest = behind;
    }
    rest
}

/// A source without so many lines at its front.
fn behind_lines(source: &[u8], many: u32) -> &[u8]
    ensures { result.now ≡ spec.behind_lines many source.now }
{
    let mut left = many;
    let mut rest = source;
    while left > 0 {
        rest = behind_line(rest);
        left -= 1;
    }
    rest
}

/// The first line of a text.
fn first_line(text: &[u8]) -> &[u8]
    ensures { result.now ≡ take (spec.line_span text.now) text.now }
{
    &text[..line_span(text)]
}

/// The line of a source that has this number, counted from 1.
#[tactic(auto, unfolding(crate::specs::Sources::line_at))]
fn line_at(source: &[u8], number: u32) -> &[u8]
    ensures { result.now ≡ spec.line_at number source.now }
{
    first_line(behind_lines(source, number.saturating_sub(1)))
}

/// What stands behind so many bytes.
fn behind(text: &[u8], many: usize) -> &[u8]
    ensures { result.now ≡ drop many text.now }
{
    if many < text.len() {
        &text[many..]
    } else {
        &text[text.len()..]
    }
}

/// A text, and behind it the name that stands at a place, and a colon.
#[tactic(auto, unfolding(crate::specs::Sources::name_text))]
pub(crate) fn push_name_at(
    text: &mut Vec<u8>,
    before: &str,
    source: &[u8],
    place: Place,
) -> Result<(), NoMemory>
    ensures { OnOk result (text.new.items ≡ text.old.items ++ spec.name_text before.now source.now place) }
{
    let line = line_at(source, place.line);
    match name(behind(line, place.column.saturating_sub(1) as usize)) {
        None => push(text, before),
        Some((name, _rest)) => {
            push(text, before)?;
            push(text, name)?;
            push(text, ": ")
        }
    }
}

/// What stands under a byte in this column.
fn mark_of(from: u32, to: u32, at: u64, byte: u8) -> u8
    ensures { result ≡ spec.mark_of from to at byte }
{
    if at == u64::from(from) || at == u64::from(to) {
        b'^'
    } else if byte == b'\t' {
        b'\t'
    } else {
        b' '
    }
}

/// What stands under a line: marks in two columns.
fn push_marks(text: &mut Vec<u8>, from: u32, to: u32, line: &[u8]) -> Result<(), NoMemory>
    ensures { OnOk result (text.new.items ≡ text.old.items ++ spec.marks from to 1 line.now) }
{
    let mut at: u64 = 1;
    let mut rest = line;
    while let Some((byte, behind)) = rest.split_first() {
        if at > u64::from(from) && at > u64::from(to) {
            return Ok(());
        }
        text.push(mark_of(from, to, at, *byte))?;
        at += 1;
        rest = behind;
    }
    Ok(())
}

/// A line of the source, with marks in two columns under it.
#[tactic(auto, unfolding(crate::specs::Sources::shown))]
fn push_shown(
    alloc: Global,
    text: &mut Vec<u8>,
    source: &[u8],
    number: u32,
    from: u32,
    to: u32,
) -> Result<(), NoMemory>
    ensures { OnOk result (text.new.items ≡ text.old.items ++ spec.shown source.now number from to) }
{
    let line = line_at(source, number);
    let mut head = Vec::new(alloc);
    push_number(&mut head, number)?;
    push_right(text, 6, head.as_slice())?;
    push(text, " | ")?;
    text.extend_from_slice(line)?;
    push(text, "\n       | ")?;
    push_marks(text, from, to, line)?;
    push(text, "\n")
}

/// The line of a place, with a mark under it.
#[tactic(auto, unfolding(crate::specs::Sources::shown_place))]
pub(crate) fn push_shown_place(
    alloc: Global,
    text: &mut Vec<u8>,
    source: &[u8],
    place: Place,
) -> Result<(), NoMemory>
    ensures { OnOk result (text.new.items ≡ text.old.items ++ spec.shown_place source.now place) }
{
    push_shown(alloc, text, source, place.line, place.column, place.column)
}

/// The lines of two places, each once, with marks under them.
#[tactic(auto, unfolding(crate::specs::Sources::shown_places))]
pub(crate) fn push_shown_places(
    alloc: Global,
    text: &mut Vec<u8>,
    source: &[u8],
    from: Place,
    to: Place,
) -> Result<(), NoMemory>
    ensures { OnOk result (text.new.items ≡ text.old.items ++ spec.shown_places source.now from to) }
{
    if from.line == to.line {
        return push_shown(alloc, text, source, from.line, from.column, to.column);
    }
    push_shown_place(alloc, text, source, from)?;
    push_shown_place(alloc, text, source, to)
}
