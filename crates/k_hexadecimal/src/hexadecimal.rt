//! The values of hexadecimal floating constants.
ghost use Rattle.std.specs.Prelude.{◌≡◌, ◌<◌, ◌≤◌, ◌+◌, ◌-◌, ◌*◌, ◌^◌, ◌==◌, ◌||◌, min, nat_lt, ℕ, length, true, false};
ghost use Rattle.std.specs.Char.{is_ascii_hexdigit};
ghost use Rattle.std.specs.Float.Ieee.{size, prec, low, hid, ones, round, of_bits};
ghost use Rattle.std.specs.Float.Ieee.Nearest.{closest};
ghost use Rattle.k_real.specs.Codes.{format};
ghost use Rattle.k_real.specs.Constants.{finite_code as finite};
ghost use Rattle.k_hexadecimal.specs.Hexadecimal.{digit, number, many, behind, decimal, are_digits, is_number as is_number_of, code_with, with_power as with_power_of, with_exponent as with_exponent_of, with_rest as with_rest_of, with_fraction as with_fraction_of, behind_prefix as behind_prefix_of, behind_zero as behind_zero_of, hexadecimal, IsOf, IsSome, far_code_of, scaled_bits};

use k_real::{Precision, code_of};
use std::num::{f32_from_bits_with_nan, f32_to_f64_with_nan, f64_from_bits_with_nan};

/// A number by its digits of base 16: the first ones as a number, how many stand behind these, and whether one of those is not 0.
#[derive(Clone, Copy)]
pub(crate) struct Significand {
    pub(crate) head: u64,
    pub(crate) dropped: u128,
    pub(crate) more: bool,
}

/// From here on a head takes no digit: it has 57 to 60 digits of base 2.
const FULL: u64 = 0x100_0000_0000_0000;

/// Exponents aren't read on from here: no text is so long that its digits could make up for one.
const FAR: u128 = 0x1_0000_0000_0000_0000_0000;

/// What a hexadecimal digit counts.
fn digit_of(b: u8) -> u8
    ensures { result ≡ digit b }
{
    if b < 58 {
        b.saturating_sub(48)
    } else if b < 97 {
        b - 55
    } else {
        b - 87
    }
}

/// A significand with a digit more.
fn with_digit(s: Significand, digit: u8) -> Significand
    requires digit { digit < 16 }
    requires room { s.dropped < 2 ^ 100 }
    ensures value { (m : ℕ) → IsOf s m → IsOf result (m * 16 + digit) }
    ensures room { result.dropped ≤ s.dropped + 1 }
{
    if s.head < FULL {
        Significand {
            head: s.head * 16 + u64::from(digit),
            dropped: s.dropped,
            more: s.more,
        }
    } else {
        Significand {
            head: s.head,
            dropped: s.dropped + 1,
            more: s.more || digit != 0,
        }
    }
}

/// Whether all of a text are decimal digits.
fn all_digits(text: &[u8]) -> bool
    ensures { result ≡ are_digits text.now }
{
    let mut rest = text;
    while let Some((b, later)) = rest.split_first() {
        if !b.is_ascii_digit() {
            return false;
        }
        rest = later;
    }
    true
}

/// Whether there is a digit, and nothing else.
fn is_number(digits: &[u8]) -> bool
    ensures { result ≡ is_number_of digits.now }
{
    match digits.split_first() {
        None => false,
        Some((_first, _later)) => all_digits(digits),
    }
}

/// The number that decimal digits write, or FAR where that is less.
fn decimal_number(digits: &[u8]) -> u128
    ensures { result ≡ min (decimal 0 digits.now) 1208925819614629174706176 }
{
    let mut n = 0;
    let mut rest = digits;
    while let Some((b, later)) = rest.split_first() {
        n = (n * 10 + u128::from(b.saturating_sub(48))).min(FAR);
        rest = later;
    }
    n
}

/// The head without its lowest digits of base 2, to nearest, ties to even, where more may stand behind it.
fn rounded(head: u64, drop: u32, more: bool) -> u64
    requires some { 0 < drop }
    requires drop { drop < 64 }
    requires head { head < 2 ^ 60 }
    ensures { (c l : ℕ) → 0 < c → l < c → more ≡ nat_lt 0 l → result ≡ closest (head * c + l) (c * 2 ^ drop) }
{
    let kept = head >> drop;
    let rest = head % (1 << drop);
    let half = 1 << (drop - 1);
    if rest < half {
        kept
    } else if rest > half {
        kept + 1
    } else if more {
        kept + 1
    } else {
        kept + kept % 2
    }
}

/// How many digits of base 2 a number has.
fn bits(n: u64) -> u32
    requires { 0 < n }
    ensures value { result ≡ size n }
    ensures below { result ≤ 64 }
{
    64 - n.leading_zeros()
}

/// The significand with the digits at the front of a text, and what stands behind these.
fn read<'a>(start: Significand, text: &'a [u8]) -> (Significand, &'a [u8])
    requires { start.dropped ≤ 2 ^ 65 }
    ensures value { (m : ℕ) → IsOf start m → IsOf result.0 (number m text.now) }
    ensures rest { result.1.now ≡ behind text.now }
    ensures within { length result.1.now ≤ length text.now }
    ensures room { result.0.dropped + length result.1.now ≤ start.dropped + length text.now }
{
    let _size = text.len();
    let mut s = start;
    let mut rest = text;
    while let Some((b, later)) = rest.split_first() {
        if !b.is_ascii_hexdigit() {
            return (s, rest);
        }
        s = with_digit(s, digit_of(*b));
        rest = later;
    }
    (s, rest)
}

/// The head without so many digits of base 2.
fn cut(s: Significand, drop: u128) -> u64
    requires some { 0 < drop }
    requires head { s.head < 2 ^ 60 }
    ensures { (c l : ℕ) → 0 < c → l < c → s.more ≡ nat_lt 0 l → result ≡ closest (s.head * c + l) (c * 2 ^ drop) }
{
    if drop < 64 {
        rounded(s.head, drop as u32, s.more)
    } else {
        0
    }
}

/// The head in units of 2^k, of its number times 2^a / 2^b.
fn in_units(s: Significand, a: u128, b: u128, k: u128) -> u64
    requires first { a < 2 ^ 100 }
    requires second { b < 2 ^ 100 }
    requires third { k < 2 ^ 101 }
    requires head { s.head < 2 ^ 60 }
    requires exact { b + k ≤ a → s.more ≡ false }
    requires shift { b + k ≤ a → a - b - k < 64 }
    requires room { b + k ≤ a → s.head * 2 ^ (a - b - k) < 2 ^ 64 }
    ensures { (c l : ℕ) → 0 < c → l < c → s.more ≡ nat_lt 0 l → result ≡ closest ((s.head * c + l) * 2 ^ a) (c * 2 ^ b * 2 ^ k) }
{
    if b + k <= a {
        s.head << (a - b - k)
    } else {
        cut(s, b + k - a)
    }
}

/// How many digits of base 2 a format has, and how many of its least value's places stand behind the point.
fn sizes(p: Precision) -> (u32, u32)
    ensures digits { result.0 ≡ prec (format p) }
    ensures least { result.1 ≡ low (format p) }
    ensures few { result.1 ≤ 1074 }
{
    match p {
        Precision::Single => (24, 149),
        Precision::Double => (53, 1074),
    }
}

/// The bits of an infinity.
fn infinity(p: Precision) -> u64
    ensures { result ≡ ones (format p) * hid (format p) }
{
    match p {
        Precision::Single => 0x7f80_0000,
        Precision::Double => 0x7ff0_0000_0000_0000,
    }
}

/// The bits of n * 2^k of a format's least values, or those of an infinity.
fn packed(p: Precision, n: u64, k: u64) -> u64
    requires power { k < 2047 }
    requires digits { n ≤ 2 ^ 53 }
    ensures { result ≡ scaled_bits (format p) n k }
{
    match p {
        Precision::Single => (k * 0x80_0000 + n).min(0x7f80_0000),
        Precision::Double => (k * 0x10_0000_0000_0000 + n).min(0x7ff0_0000_0000_0000),
    }
}

/// The real of the bits of a format, which are at most those of an infinity.
fn real_of_bits(p: Precision, bits: u64) -> f64
    requires { bits ≤ ones (format p) * hid (format p) }
    ensures { result ≡ of_bits (format p) bits }
{
    match p {
        Precision::Single => f32_to_f64_with_nan(f32_from_bits_with_nan(bits as u32)),
        Precision::Double => f64_from_bits_with_nan(bits),
    }
}

/// How many digits of a significand times 2^a / 2^b, in a format's least values, the format doesn't keep.
fn places(p: Precision, s: Significand, a: u128, b: u128) -> u128
    requires some { 0 < s.head }
    requires first { a < 2 ^ 100 }
    ensures value { result ≡ size s.head + a - b - prec (format p) }
    ensures below { result < 2 ^ 101 }
{
    let (digits, _least) = sizes(p);
    (u128::from(bits(s.head)) + a)
        .saturating_sub(b)
        .saturating_sub(u128::from(digits))
}

/// The bits, in a format, of a significand times 2^a / 2^b of its least values.
fn pattern(p: Precision, s: Significand, a: u128, b: u128) -> u64
    requires some { 0 < s.head }
    requires first { a < 2 ^ 100 }
    requires second { b < 2 ^ 100 }
    requires head { s.head < 2 ^ 60 }
    requires full { s.more ≡ true → 2 ^ 56 ≤ s.head }
    ensures within { result ≤ ones (format p) * hid (format p) }
    ensures value { (num den c l : ℕ) → 0 < den → 0 < c → l < c → s.more ≡ nat_lt 0 l → num * 2 ^ low (format p) * (c * 2 ^ b) ≡ (s.head * c + l) * 2 ^ a * den → of_bits (format p) result ≡ round (format p) false num den }
{
    let k = places(p, s, a, b);
    let kept = in_units(s, a, b, k);
    if k < 2047 {
        packed(p, kept, k as u64)
    } else {
        infinity(p)
    }
}

/// The code of a finite real.
fn finite_code(x: f64) -> Option<u64>
    ensures { result ≡ finite x }
{
    if x.is_finite() {
        Some(code_of(x))
    } else {
        None
    }
}

/// The code of a significand times 2^up / 2^down, with so many hexadecimal digits behind its point.
fn code_of_value(p: Precision, s: Significand, up: u128, down: u128, behind: usize) -> Option<u64>
    requires some { IsSome s }
    requires up { up ≤ 2 ^ 80 }
    requires down { down ≤ 2 ^ 80 }
    requires room { s.dropped ≤ 2 ^ 66 }
    ensures { (m : ℕ) → IsOf s m → result ≡ code_with p m up down behind }
{
    if s.head == 0 {
        Some(0)
    } else {
        let (_digits, least) = sizes(p);
        let a = up + 4 * s.dropped + u128::from(least);
        let b = down + 4 * (behind as u128);
        finite_code(real_of_bits(p, pattern(p, s, a, b)))
    }
}

/// The same with an exponent that is too great for any text.
fn far_code(s: Significand, minus: bool) -> Option<u64>
    ensures { result ≡ far_code_of s.head minus }
{
    if s.head == 0 || minus { Some(0) } else { None }
}

/// By the exponent's digits, and whether a minus stands before them.
fn with_power(
    p: Precision,
    s: Significand,
    behind: usize,
    minus: bool,
    digits: &[u8],
) -> Option<u64>
    requires some { IsSome s }
    requires room { s.dropped ≤ 2 ^ 66 }
    ensures { (m : ℕ) → IsOf s m → result ≡ with_power_of p m behind minus digits.now }
{
    if !is_number(digits) {
        return None;
    }
    let e = decimal_number(digits);
    if e == FAR {
        far_code(s, minus)
    } else if minus {
        code_of_value(p, s, 0, e, behind)
    } else {
        code_of_value(p, s, e, 0, behind)
    }
}

/// By the text behind the `p`.
fn with_exponent(p: Precision, s: Significand, behind: usize, text: &[u8]) -> Option<u64>
    requires some { IsSome s }
    requires room { s.dropped ≤ 2 ^ 66 }
    ensures { (m : ℕ) → IsOf s m → result ≡ with_exponent_of p m behind text.now }
{
    match text.split_first() {
        None => None,
        Some((b, later)) => {
            if *b == b'-' {
                with_power(p, s, behind, true, later)
            } else if *b == b'+' {
                with_power(p, s, behind, false, later)
            } else {
                with_power(p, s, behind, false, text)
            }
        }
    }
}

/// Whether an exponent begins here.
fn is_power(b: u8) -> bool
    ensures { result ≡ (b == 112 || b == 80) }
{
    b == b'p' || b == b'P'
}

/// By the text behind so many digits.
fn with_rest(p: Precision, s: Significand, digits: usize, behind: usize, text: &[u8]) -> Option<u64>
    requires some { IsSome s }
    requires room { s.dropped ≤ 2 ^ 66 }
    ensures { (m : ℕ) → IsOf s m → result ≡ with_rest_of p m digits behind text.now }
{
    match text.split_first() {
        None => None,
        Some((b, later)) => {
            if digits == 0 {
                None
            } else if is_power(*b) {
                with_exponent(p, s, behind, later)
            } else {
                None
            }
        }
    }
}

/// By the text behind the digits of a whole number, of which a point may be the first.
fn with_fraction(p: Precision, s: Significand, digits: usize, text: &[u8]) -> Option<u64>
    requires some { IsSome s }
    requires room { s.dropped ≤ 2 ^ 65 }
    requires all { digits + length text.now < 2 ^ 64 }
    ensures { (m : ℕ) → IsOf s m → result ≡ with_fraction_of p m digits text.now }
{
    match text.split_first() {
        None => None,
        Some((b, later)) => {
            if *b == b'.' {
                let (t, rest) = read(s, later);
                let behind = later.len() - rest.len();
                with_rest(p, t, digits + behind, behind, rest)
            } else {
                with_rest(p, s, digits, 0, text)
            }
        }
    }
}

/// By the text behind the prefix.
fn behind_prefix(p: Precision, text: &[u8]) -> Option<u64>
    ensures { result ≡ behind_prefix_of p text.now }
{
    let start = Significand {
        head: 0,
        dropped: 0,
        more: false,
    };
    let (s, rest) = read(start, text);
    with_fraction(p, s, text.len() - rest.len(), rest)
}

/// Whether the prefix ends here.
fn is_hexadecimal(b: u8) -> bool
    ensures { result ≡ (b == 120 || b == 88) }
{
    b == b'x' || b == b'X'
}

/// By the text behind the 0 of the prefix.
fn behind_zero(p: Precision, text: &[u8]) -> Option<u64>
    ensures { result ≡ behind_zero_of p text.now }
{
    match text.split_first() {
        None => None,
        Some((b, later)) => {
            if is_hexadecimal(*b) {
                behind_prefix(p, later)
            } else {
                None
            }
        }
    }
}

/// By the bytes of a text.
fn of_bytes(p: Precision, text: &[u8]) -> Option<u64>
    ensures { result ≡ hexadecimal p text.now }
{
    match text.split_first() {
        None => None,
        Some((b, later)) => {
            if *b == b'0' {
                behind_zero(p, later)
            } else {
                None
            }
        }
    }
}

/// The code of a hexadecimal floating constant, its suffix taken off, rounded once to a precision; none where the text is no such constant or its
/// value rounds to an infinity.
pub fn hexadecimal_constant(p: Precision, text: &str) -> Option<u64>
    ensures { result ≡ hexadecimal p text.now }
{
    of_bytes(p, text.as_bytes())
}
