//! Character constants and strings.
ghost use Rattle.std.specs.Prelude.{◌≡◌, ◌+◌, ◌<◌, ◌≤◌, [], ◌∷◌, length, Some};
ghost use Rattle.k_lex_pieces.specs.Bytes as bytes;
ghost use Rattle.k_lex_pieces.specs.Pieces as pieces;
ghost use Rattle.k_lex_pieces.specs.Numbers as numbers;
ghost use Rattle.k_lex_pieces.specs.Literals as spec;
ghost use Rattle.k_lex_pieces.specs.Outcome.{Gives};

use crate::bytes::{behind, is_octal};
use crate::fault::{Fault, Refusal, Stop};
use crate::numbers::value;
use crate::scan::{Class, span};
use k_num::{Place, Seq};
use std::alloc::Global;

/// How many bytes behind a backslash belong to the escape, or to what stands in the place of one.
pub fn escape_length(text: &[u8]) -> usize
    ensures found { result ≡ pieces.escape_length text.now }
    ensures within { result ≤ length text.now }
{
    match text.split_first() {
        None => 0,
        Some((first, rest)) => {
            if is_octal(*first) {
                span(Class::Octal, text).min(3)
            } else if *first == b'x' {
                span(Class::Hexadecimal, rest) + 1
            } else {
                1
            }
        }
    }
}

/// How many bytes the first character or escape has.
pub fn item_length(text: &[u8]) -> usize
    ensures found { result ≡ pieces.item_length text.now }
    ensures within { result ≤ length text.now }
    ensures some { 0 < length text.now → 0 < result }
{
    match text.split_first() {
        None => 0,
        Some((first, rest)) => {
            if *first == b'\\' {
                escape_length(rest) + 1
            } else {
                1
            }
        }
    }
}

/// The value of the digits, where it is that of a byte.
fn byte_value(base: u64, digits: &[u8]) -> Option<u8>
    requires { 1 ≤ base }
    ensures { result ≡ spec.in_byte (Some (numbers.value base 0 digits.now)) }
{
    match value(base, digits) {
        None => None,
        Some(value) => {
            if value <= 255 {
                Some(value as u8)
            } else {
                None
            }
        }
    }
}

fn simple_escape(letter: u8) -> Option<u8>
    ensures { result ≡ spec.in_byte (bytes.look_up spec.simple_escapes (letter ∷ [])) }
{
    match letter {
        b'\'' | b'"' | b'?' | b'\\' => Some(letter),
        b'a' => Some(7),
        b'b' => Some(8),
        b'f' => Some(12),
        b'n' => Some(b'\n'),
        b'r' => Some(b'\r'),
        b't' => Some(b'\t'),
        b'v' => Some(11),
        _ => None,
    }
}

/// The byte that an escape stands for, by the text behind its backslash.
fn escape(text: &[u8]) -> Option<u8>
    ensures { result ≡ spec.in_byte (spec.escape_value text.now) }
{
    match text.split_first() {
        None => None,
        Some((first, rest)) => {
            if is_octal(*first) {
                byte_value(8, &text[..escape_length(text)])
            } else if *first == b'x' {
                hexadecimal(rest)
            } else {
                simple_escape(*first)
            }
        }
    }
}

fn hexadecimal(rest: &[u8]) -> Option<u8>
    ensures { result ≡ spec.in_byte (spec.hexadecimal_value rest.now) }
{
    let count = span(Class::Hexadecimal, rest);
    if count == 0 {
        return None;
    }
    byte_value(16, &rest[..count])
}

/// The byte that the first character or escape of the text stands for.
fn item(place: Place, text: &[u8]) -> Result<u8, Fault>
    ensures { result ≡ spec.item_at place text.now }
{
    let fault = Fault {
        what: Refusal::BadEscape,
        place,
    };
    match text.split_first() {
        None => Err(fault),
        Some((first, rest)) => {
            if *first == b'\\' {
                escape(rest).ok_or(fault)
            } else {
                Ok(*first)
            }
        }
    }
}

/// The bytes that a string's text stands for.
pub fn content(alloc: Global, place: Place, text: &[u8]) -> Result<Seq<u8>, Stop>
    requires { bytes.HasRoom place (length text.now) }
    ensures { Gives (λ s. s) result (spec.content place 0 text.now) }
{
    let mut out = Seq::new(alloc);
    let mut place = place;
    let mut rest = text;
    while !rest.is_empty() {
        let byte = item(place, rest)?;
        out.push(byte)?;
        let (front, more) = rest.split_at(item_length(rest));
        place = behind(place, front);
        rest = more;
    }
    Ok(out)
}

/// A literal without its quotes.
pub fn inside(spelling: &[u8]) -> &[u8]
    ensures { result.now ≡ spec.inside spelling.now }
{
    match spelling {
        [_, inside @ .., _] => inside,
        _ => &[],
    }
}

fn as_char(b: u8) -> i32
    ensures { result ≡ spec.as_char b }
{
    if b < 128 {
        i32::from(b)
    } else {
        i32::from(b) - 256
    }
}

fn begins_high(text: &[u8]) -> bool
    ensures { result ≡ spec.begins_high text.now }
{
    match text {
        [] => false,
        [first, ..] => *first >= 128,
    }
}

/// The value of a character constant, by what is inside its quotes.
pub fn character(place: Place, text: &[u8]) -> Result<i32, Fault>
    ensures { result ≡ spec.character_of place text.now }
{
    if begins_high(text) {
        return Err(Fault {
            what: Refusal::BadByte,
            place,
        });
    }
    match item(place, text) {
        Ok(b) => Ok(as_char(b)),
        Err(fault) => Err(fault),
    }
}
