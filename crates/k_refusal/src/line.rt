//! The line of a source at a place, as it is shown, and the caret under the place.
ghost use Rattle.std.specs.Prelude.{◌≡◌, ◌≤◌, ◌++◌, length, map, OnOk};
ghost use Rattle.std.specs.List.{flat_map};
ghost use Rattle.k_refusal.specs.Lines as spec;

use crate::front::{behind, front};
use k_num::NoMemory;
use k_text::push;

/// How many bytes of a line are shown at most, and how many of them stand before the place where a longer one is cut.
const MOST: usize = 200;

const BEFORE: usize = 100;

/// What stands behind so many newlines.
fn behind_newlines(source: &[u8], count: u32) -> &[u8]
    ensures { result.now ≡ spec.behind_newlines count source.now }
{
    let mut left = count;
    let mut rest = source;
    while let Some((byte, behind)) = rest.split_first() {
        if left == 0 {
            return rest;
        }
        if *byte == b'\n' {
            left -= 1;
        }
        rest = behind;
    }
    rest
}

/// How many bytes stand before the first newline.
fn line_span(text: &[u8]) -> usize
    ensures found { result ≡ spec.line_span text.now }
    ensures within { result ≤ length text.now }
{
    let mut count = 0;
    let mut rest = text;
    while let Some((byte, behind)) = rest.split_first() {
        if *byte == b'\n' {
            return count;
        }
        count += 1;
        rest = behind;
    }
    count
}

/// The line of this number, counted from 1, without its newline.
#[tactic(auto, unfolding(crate::specs::Lines::line_of))]
pub(crate) fn line_of(source: &[u8], number: u32) -> &[u8]
    ensures { result.now ≡ spec.line_of number source.now }
{
    let rest = behind_newlines(source, number.saturating_sub(1));
    front(rest, line_span(rest))
}

/// How many bytes are cut off at the front of a line.
fn cut_off(size: usize, before: usize) -> usize
    ensures { result ≡ spec.cut_off size before }
{
    if size <= MOST {
        0
    } else {
        before.saturating_sub(BEFORE).min(size - MOST)
    }
}

/// A byte as it is shown.
fn shown_byte(byte: u8) -> u8
    ensures { result ≡ spec.shown_byte byte }
{
    if (byte <= 31 && byte != b'\t') || byte == 127 {
        b'?'
    } else {
        byte
    }
}

/// What stands under a byte in front of the caret.
fn under_byte(byte: u8) -> &'static str
    ensures { result.now ≡ spec.under_byte byte }
{
    if byte == b'\t' {
        "\t"
    } else if 128 <= byte && byte <= 191 {
        ""
    } else {
        " "
    }
}

/// Bytes as they are shown.
fn push_shown(text: &mut Vec<u8>, line: &[u8]) -> Result<(), NoMemory>
    ensures { OnOk result (text.new.items ≡ text.old.items ++ map spec.shown_byte line.now) }
{
    for byte in line {
        text.push(shown_byte(*byte))?;
    }
    Ok(())
}

/// What stands under bytes in front of the caret.
fn push_under(text: &mut Vec<u8>, line: &[u8]) -> Result<(), NoMemory>
    ensures { OnOk result (text.new.items ≡ text.old.items ++ flat_map spec.under_byte line.now) }
{
    for byte in line {
        push(text, under_byte(*byte))?;
    }
    Ok(())
}

/// A line behind so many of whose bytes the place stands, and the line of the caret.
#[tactic(auto, unfolding(crate::specs::Lines::shown_line))]
pub(crate) fn push_line(text: &mut Vec<u8>, line: &[u8], before: usize) -> Result<(), NoMemory>
    ensures { OnOk result (text.new.items ≡ text.old.items ++ spec.shown_line line.now before) }
{
    let cut = cut_off(line.len(), before);
    let shown = front(behind(line, cut), MOST);
    push_shown(text, shown)?;
    push(text, "\n")?;
    push_under(text, front(shown, before.saturating_sub(cut)))?;
    push(text, "^\n")
}
