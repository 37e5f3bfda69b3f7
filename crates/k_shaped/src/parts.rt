//! The parts of a conversion, each at the front of a text.
ghost use Rattle.std.specs.Prelude.{◌≡◌};
ghost use Rattle.k_shaped.specs.Reading as reading;
ghost use Rattle.k_shaped.specs.Spelling.{is_flag as is_flag_in};

use crate::Length;

/// A number above each that a width or a precision may be.
const MORE: u32 = 4096;

/// `- + space # 0`
#[tactic(auto, unfolding(crate::specs::Spelling::is_flag))]
fn is_flag(b: u8) -> bool
    ensures { result ≡ is_flag_in b }
{
    b == b'-' || b == b'+' || b == b' ' || b == b'#' || b == b'0'
}

/// Whether a flag is among those at the front.
#[tactic(auto, unfolding(crate::specs::Reading::flagged))]
pub(crate) fn flagged(flag: u8, text: &[u8]) -> bool
    ensures { result ≡ reading.flagged flag text.now }
{
    let mut rest = text;
    while let Some((b, more)) = rest.split_first() {
        if !is_flag(*b) {
            return false;
        }
        if *b == flag {
            return true;
        }
        rest = more;
    }
    false
}

/// What stands behind the flags.
#[tactic(auto, unfolding(crate::specs::Reading::behind_flags))]
pub(crate) fn behind_flags(text: &[u8]) -> &[u8]
    ensures { result.now ≡ reading.behind_flags text.now }
{
    let mut rest = text;
    while let Some((b, more)) = rest.split_first() {
        if !is_flag(*b) {
            return rest;
        }
        rest = more;
    }
    rest
}

/// What stands behind the digits.
#[tactic(auto, unfolding(crate::specs::Reading::behind_digits))]
pub(crate) fn behind_digits(text: &[u8]) -> &[u8]
    ensures { result.now ≡ reading.behind_digits text.now }
{
    let mut rest = text;
    while let Some((b, more)) = rest.split_first() {
        if !b.is_ascii_digit() {
            return rest;
        }
        rest = more;
    }
    rest
}

/// The number at the front; of greater ones 4,096.
#[tactic(auto, unfolding(crate::specs::Reading::number))]
pub(crate) fn number(text: &[u8]) -> u32
    ensures { result ≡ reading.number text.now }
{
    let mut n = 0;
    let mut rest = text;
    while let Some((b, more)) = rest.split_first() {
        if !b.is_ascii_digit() {
            return n;
        }
        n = (n * 10 + u32::from(*b - b'0')).min(MORE);
        rest = more;
    }
    n
}

/// The precision at the front.
#[tactic(auto, unfolding(crate::specs::Reading::precision))]
pub(crate) fn precision(text: &[u8]) -> Option<u32>
    ensures { result ≡ reading.precision text.now }
{
    match text {
        [b'.', rest @ ..] => Some(number(rest)),
        _ => None,
    }
}

/// What stands behind the precision.
#[tactic(auto, unfolding(crate::specs::Reading::behind_precision))]
pub(crate) fn behind_precision(text: &[u8]) -> &[u8]
    ensures { result.now ≡ reading.behind_precision text.now }
{
    match text {
        [b'.', rest @ ..] => behind_digits(rest),
        _ => text,
    }
}

/// Whether a byte stands at the front.
#[tactic(auto, unfolding(crate::specs::Reading::begins))]
fn begins(b: u8, text: &[u8]) -> bool
    ensures { result ≡ reading.begins b text.now }
{
    match text {
        [c, ..] => *c == b,
        [] => false,
    }
}

/// The length that a byte begins.
#[tactic(auto, unfolding(crate::specs::Reading::length_from))]
fn length_from(b: u8, text: &[u8]) -> Length
    ensures { result ≡ reading.length_from b text.now }
{
    match b {
        b'h' if begins(b'h', text) => Length::Char,
        b'h' => Length::Short,
        b'l' if begins(b'l', text) => Length::LongLong,
        b'l' => Length::Long,
        b'z' => Length::Size,
        b'j' => Length::Greatest,
        b't' => Length::Difference,
        _ => Length::Plain,
    }
}

/// The length at the front.
#[tactic(auto, unfolding(crate::specs::Reading::length_at))]
pub(crate) fn length_at(text: &[u8]) -> Length
    ensures { result ≡ reading.length_at text.now }
{
    match text {
        [b, rest @ ..] => length_from(*b, rest),
        [] => Length::Plain,
    }
}

/// How many bytes spell a length.
#[tactic(auto, unfolding(crate::specs::Reading::bytes_of))]
pub(crate) fn bytes_of(length: Length) -> usize
    ensures { result ≡ reading.bytes_of length }
{
    match length {
        Length::Plain => 0,
        Length::Char | Length::LongLong => 2,
        _ => 1,
    }
}
