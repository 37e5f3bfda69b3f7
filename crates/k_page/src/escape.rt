//! Bytes as text of a page: what could be markup is written by its name, and what is no character by one that stands for it.
ghost use Rattle.std.specs.Prelude.{◌≡◌, ◌++◌, get_or, IfOk, OnOk};
ghost use Rattle.k_page.specs.Escapes as spec;

use k_num::NoMemory;
use k_text::push;

/// A byte at a place, or 0 behind the end.
fn byte_at(text: &[u8], place: usize) -> u8
    ensures { result ≡ get_or text.now place 0 }
{
    if place < text.len() { text[place] } else { 0 }
}

/// Whether a byte goes on a character.
fn is_tail(byte: u8) -> bool
    ensures { result ≡ spec.is_tail byte }
{
    matches!(byte, 128..=191)
}

/// Whether a byte goes on a character of three bytes behind its first one.
fn is_second_of_three(first: u8, second: u8) -> bool
    ensures { result ≡ spec.is_second_of_three first second }
{
    if first == 224 {
        matches!(second, 160..=191)
    } else if first == 237 {
        matches!(second, 128..=159)
    } else {
        is_tail(second)
    }
}

/// Whether a byte goes on a character of four bytes behind its first one.
fn is_second_of_four(first: u8, second: u8) -> bool
    ensures { result ≡ spec.is_second_of_four first second }
{
    if first == 240 {
        matches!(second, 144..=191)
    } else if first == 244 {
        matches!(second, 128..=143)
    } else {
        is_tail(second)
    }
}

/// Whether a character of two bytes begins here.
fn is_two(first: u8, behind: &[u8]) -> bool
    ensures { result ≡ spec.is_two first behind.now }
{
    matches!(first, 194..=223) && is_tail(byte_at(behind, 0))
}

/// Whether a character of three bytes begins here.
fn is_three(first: u8, behind: &[u8]) -> bool
    ensures { result ≡ spec.is_three first behind.now }
{
    matches!(first, 224..=239)
        && is_second_of_three(first, byte_at(behind, 0))
        && is_tail(byte_at(behind, 1))
}

/// Whether a character of four bytes begins here.
fn is_four(first: u8, behind: &[u8]) -> bool
    ensures { result ≡ spec.is_four first behind.now }
{
    matches!(first, 240..=244)
        && is_second_of_four(first, byte_at(behind, 0))
        && is_tail(byte_at(behind, 1))
        && is_tail(byte_at(behind, 2))
}

/// How many bytes of a character of UTF-8 stand behind its first one; 0 also where none begins.
fn tails(first: u8, behind: &[u8]) -> usize
    ensures { result ≡ spec.tails first behind.now }
{
    if is_two(first, behind) {
        1
    } else if is_three(first, behind) {
        2
    } else if is_four(first, behind) {
        3
    } else {
        0
    }
}

/// Whether a byte below 128 stands for itself.
fn is_plain(byte: u8) -> bool
    ensures { result ≡ spec.is_plain byte }
{
    byte == b'\t'
        || (byte >= 32 && byte != 127 && !matches!(byte, b'&' | b'<' | b'>' | b'"' | b'\''))
}

/// What is written for a byte that doesn't stand for itself.
#[tactic(auto, unfolding(crate::specs::Escapes::name_of))]
fn name_of(byte: u8) -> &'static str
    ensures { result.now ≡ spec.name_of byte }
{
    match byte {
        b'&' => "&amp;",
        b'<' => "&lt;",
        b'>' => "&gt;",
        b'"' => "&quot;",
        b'\'' => "&#39;",
        b'\r' => " ",
        _ => "&#65533;",
    }
}

/// Whether a byte that begins a character, or none, is written as it is.
fn stands(byte: u8, tails: usize) -> bool
    ensures { result ≡ spec.stands byte tails }
{
    if byte < 128 {
        is_plain(byte)
    } else {
        tails > 0
    }
}

/// A byte that begins a character with so many bytes behind it, or none.
fn push_first(text: &mut Vec<u8>, byte: u8, tails: usize) -> Result<(), NoMemory>
    ensures { OnOk result (text.new.items ≡ text.old.items ++ spec.first_written byte tails) }
{
    if stands(byte, tails) {
        text.push(byte)?;
        Ok(())
    } else {
        push(text, name_of(byte))
    }
}

/// A byte with what stands behind it, so many bytes before the end of a character that began earlier. Answered is how many are left of the
/// character behind it.
fn push_next(text: &mut Vec<u8>, left: usize, byte: u8, behind: &[u8]) -> Result<usize, NoMemory>
    ensures written { OnOk result (text.new.items ≡ text.old.items ++ spec.next_written left byte behind.now) }
    ensures left { IfOk result (λ more. more ≡ spec.next_left left byte behind.now) }
{
    if left > 0 {
        text.push(byte)?;
        return Ok(left - 1);
    }
    let more = tails(byte, behind);
    push_first(text, byte, more)?;
    Ok(more)
}

/// Bytes as text of a page, or as an attribute's value.
#[tactic(auto, unfolding(crate::specs::Escapes::escaped))]
pub(crate) fn push_escaped(text: &mut Vec<u8>, bytes: &[u8]) -> Result<(), NoMemory>
    ensures { OnOk result (text.new.items ≡ text.old.items ++ spec.escaped bytes.now) }
{
    let mut left = 0;
    let mut rest = bytes;
    while let Some((byte, behind)) = rest.split_first() {
        left = push_next(text, left, *byte, behind)?;
        rest = behind;
    }
    Ok(())
}
