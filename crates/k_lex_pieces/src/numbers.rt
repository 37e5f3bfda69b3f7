//! Integer constants: their values and their kinds.
ghost use Rattle.std.specs.Prelude.{◌≡◌, ◌+◌, ◌*◌, ◌^◌, ◌<◌, ◌≤◌, [], ◌∷◌, MatchOption, SomeIff, length};
ghost use Rattle.k_lex_pieces.specs.Bytes as bytes;
ghost use Rattle.k_lex_pieces.specs.Numbers as spec;

use crate::bytes::digit_value;
use crate::scan::{Class, span};
use k_num::Kind;

/// The number with one digit more, unless it is past all kinds.
fn with_digit(so_far: u64, base: u64, digit: u8) -> Option<u64>
    ensures { SomeIff result (so_far * base + bytes.digit_value digit < 2 ^ 64) (so_far * base + bytes.digit_value digit) }
{
    match so_far.checked_mul(base) {
        None => None,
        Some(product) => product.checked_add(u64::from(digit_value(digit))),
    }
}

/// The value of the digits, unless it is past all kinds.
pub fn value(base: u64, digits: &[u8]) -> Option<u64>
    requires { 1 ≤ base }
    ensures { MatchOption result (2 ^ 64 ≤ spec.value base 0 digits.now) (λ v. v ≡ spec.value base 0 digits.now) }
{
    let mut so_far = 0;
    let mut rest = digits;
    while let Some((digit, more)) = rest.split_first() {
        match with_digit(so_far, base, *digit) {
            None => return None,
            Some(next) => so_far = next,
        }
        rest = more;
    }
    Some(so_far)
}

fn suffix_of_one(a: u8) -> Option<(bool, bool)>
    ensures { result ≡ bytes.look_up spec.suffixes (a ∷ []) }
{
    match a {
        b'u' | b'U' => Some((true, false)),
        b'l' | b'L' => Some((false, true)),
        _ => None,
    }
}

fn suffix_of_two(a: u8, b: u8) -> Option<(bool, bool)>
    ensures { result ≡ bytes.look_up spec.suffixes (a ∷ b ∷ []) }
{
    match (a, b) {
        (b'l', b'l') | (b'L', b'L') => Some((false, true)),
        (b'u' | b'U', b'l' | b'L') | (b'l' | b'L', b'u' | b'U') => Some((true, true)),
        _ => None,
    }
}

fn suffix_of_three(a: u8, b: u8, c: u8) -> Option<(bool, bool)>
    ensures { result ≡ bytes.look_up spec.suffixes (a ∷ b ∷ c ∷ []) }
{
    match (a, b, c) {
        (b'u' | b'U', b'l', b'l') | (b'u' | b'U', b'L', b'L') => Some((true, true)),
        (b'l', b'l', b'u' | b'U') | (b'L', b'L', b'u' | b'U') => Some((true, true)),
        _ => None,
    }
}

/// Whether the suffix has a `u` and an `l`.
fn suffix_of(suffix: &[u8]) -> Option<(bool, bool)>
    ensures { result ≡ bytes.look_up spec.suffixes suffix.now }
{
    match suffix {
        [] => Some((false, false)),
        [a] => suffix_of_one(*a),
        [a, b] => suffix_of_two(*a, *b),
        [a, b, c] => suffix_of_three(*a, *b, *c),
        [_, _, _, _, ..] => None,
    }
}

fn first_of(kinds: &[Kind], value: u64) -> Option<(Kind, u64)>
    ensures { result ≡ spec.first_kind kinds.now value }
{
    let mut rest = kinds;
    while let Some((kind, more)) = rest.split_first() {
        if value <= greatest(*kind) {
            return Some((*kind, value));
        }
        rest = more;
    }
    None
}

fn greatest(kind: Kind) -> u64
    ensures { result ≡ spec.greatest kind }
{
    match kind {
        Kind::I8 => 0x7f,
        Kind::U8 => 0xff,
        Kind::I16 => 0x7fff,
        Kind::U16 => 0xffff,
        Kind::I32 => 0x7fff_ffff,
        Kind::U32 => 0xffff_ffff,
        Kind::I64 => 0x7fff_ffff_ffff_ffff,
        Kind::U64 => u64::MAX,
    }
}

/// The first kind that holds a value, by its suffix.
fn kind_of(decimal: bool, suffix: (bool, bool), value: u64) -> Option<(Kind, u64)>
    ensures { result ≡ spec.first_kind (spec.kinds decimal suffix) value }
{
    match (suffix.0, suffix.1, decimal) {
        (true, true, _) => first_of(&[Kind::U64], value),
        (true, false, _) => first_of(&[Kind::U32, Kind::U64], value),
        (false, true, true) => first_of(&[Kind::I64], value),
        (false, true, false) => first_of(&[Kind::I64, Kind::U64], value),
        (false, false, true) => first_of(&[Kind::I32, Kind::I64], value),
        (false, false, false) => first_of(&[Kind::I32, Kind::U32, Kind::I64, Kind::U64], value),
    }
}

/// The constant of a base, of which the first `count` bytes are digits.
fn constant(base: u64, count: usize, text: &[u8]) -> Option<(Kind, u64)>
    requires base { 1 ≤ base }
    requires count { count ≤ length text.now }
    ensures { result ≡ spec.constant base count text.now }
{
    if count == 0 {
        return None;
    }
    let (digits, suffix) = text.split_at(count);
    match suffix_of(suffix) {
        None => None,
        Some(letters) => match value(base, digits) {
            None => None,
            Some(value) => kind_of(base == 10, letters, value),
        },
    }
}

/// What a number token means, where it is an integer constant.
pub fn number_of(text: &[u8]) -> Option<(Kind, u64)>
    ensures { result ≡ spec.number_of text.now }
{
    match text {
        [b'0', b'x' | b'X', digits @ ..] => {
            constant(16, span(Class::Hexadecimal, digits), digits)
        }
        [b'0', ..] => constant(8, span(Class::Octal, text), text),
        _ => constant(10, span(Class::Digit, text), text),
    }
}
