//! Texts of reals with so many digits, in the shorter of both forms.
ghost use Rattle.std.specs.Prelude.{◌≡◌, ◌+◌, ◌*◌, ◌-◌, ◌/◌, ◌%◌, ◌^◌, ◌<◌, ◌≤◌, ◌++◌, ◌&&◌, ◌==◌, IfOk, OnOk, nat_lt, nat_le};
ghost use Rattle.k_real.specs.Codes.{real_of};
ghost use Rattle.k_real.specs.Digits.{value, AreDigits, Spells};
ghost use Rattle.k_real.specs.Sizes.{field as field_of};
ghost use Rattle.k_real.specs.Texts.{scaled};
ghost use Rattle.k_real.specs.Scientific.{all_digits as all_digits_of, leading as leading_of};
ghost use Rattle.k_real.specs.General.{stripped, shown as shown_of, point_at as point_at_of, plain, with_exponent, general, unsigned_general, general_text as general_text_of};

use crate::codes::real_of_code;
use crate::digits::digit_at;
use crate::fixed::{exact, places, put_fraction, put_sign, put_whole, rounded};
use crate::scientific::{all_digits, leading, put_exponent};
use k_num::NoMemory;
use std::alloc::Global;

/// The digits of a number without the lowest.
fn without_first(ys: &[u8]) -> &[u8]
    requires { AreDigits ys.now }
    ensures { Spells result.now (value ys.now / 10) }
{
    if ys.len() > 0 {
        return &ys[1..];
    }
    ys
}

/// Whether the lowest digit is 0.
fn ends_in_zero(ys: &[u8]) -> bool
    requires { AreDigits ys.now }
    ensures { result ≡ (value ys.now % 10 == 0) }
{
    digit_at(ys, 0) == 0
}

/// Writes the point and what stands behind it without the zeros at the end.
fn put_stripped(out: &mut Vec<u8>, ys: &[u8], many: usize) -> Result<(), NoMemory>
    requires { AreDigits ys.now }
    ensures { OnOk result (out.new.items ≡ out.old.items ++ stripped many (value ys.now)) }
{
    let mut rest = ys;
    let mut left = many;
    while left > 0 {
        if !ends_in_zero(rest) {
            put_fraction(out, rest, left)?;
            return Ok(());
        }
        rest = without_first(rest);
        left -= 1;
    }
    Ok(())
}

/// The exponent is that of all digits less this.
fn point_at(ys: &[u8], a: u64, many: usize) -> usize
    requires { Spells ys.now (leading_of many a) }
    ensures value { result ≡ point_at_of many a }
    ensures few { result ≤ 1075 }
{
    if many < ys.len() {
        return places(a);
    }
    places(a) + 1
}

/// The first digits without the zero that a carry made.
fn shown(ys: &[u8], a: u64, many: usize) -> &[u8]
    requires { Spells ys.now (leading_of many a) }
    ensures { Spells result.now (shown_of many a) }
{
    if many < ys.len() {
        return &ys[1..];
    }
    ys
}

/// Whether an exponent c - k is from -4 to below so many.
fn is_plain(c: usize, k: usize, many: u32) -> bool
    requires { k ≤ 1075 }
    ensures { result ≡ (nat_lt c (k + many) && nat_le (k - 4) c) }
{
    c < k + many as usize && k.saturating_sub(4) <= c
}

/// Writes a finite real with a point at its place.
fn put_plain(alloc: Global, out: &mut Vec<u8>, a: u64, many: usize) -> Result<(), NoMemory>
    requires { field_of a < 2047 }
    ensures { OnOk result (out.new.items ≡ out.old.items ++ plain many (scaled many (real_of a))) }
{
    let ys = rounded(alloc, a, many)?;
    put_whole(out, &ys, many)?;
    put_stripped(out, &ys, many)?;
    Ok(())
}

/// Writes a number with the point behind its first digit.
fn put_with_exponent(
    out: &mut Vec<u8>,
    ys: &[u8],
    many: usize,
    c: usize,
    k: usize,
) -> Result<(), NoMemory>
    requires { AreDigits ys.now }
    ensures { OnOk result (out.new.items ≡ out.old.items ++ with_exponent many (value ys.now) c k) }
{
    out.push(b'0' + digit_at(ys, many))?;
    put_stripped(out, ys, many)?;
    out.push(b'e')?;
    put_exponent(out, c, k)?;
    Ok(())
}

/// Writes a finite real by its first digits.
fn put_shown(
    alloc: Global,
    out: &mut Vec<u8>,
    ys: &[u8],
    a: u64,
    many: u32,
    c: usize,
) -> Result<(), NoMemory>
    requires finite { field_of a < 2047 }
    requires some { 0 < many }
    requires digits { Spells ys.now (leading_of many a) }
    requires all { c ≡ all_digits_of a }
    ensures { OnOk result (out.new.items ≡ out.old.items ++ general many a) }
{
    let k = point_at(ys, a, many as usize);
    if is_plain(c, k, many) {
        put_plain(alloc, out, a, k + many as usize - c - 1)?;
        return Ok(());
    }
    put_with_exponent(out, shown(ys, a, many as usize), many as usize - 1, c, k)?;
    Ok(())
}

/// Writes a finite real without its sign.
fn put_general(alloc: Global, out: &mut Vec<u8>, a: u64, many: u32) -> Result<(), NoMemory>
    requires finite { field_of a < 2047 }
    requires some { 0 < many }
    ensures { OnOk result (out.new.items ≡ out.old.items ++ general many a) }
{
    let xs = exact(alloc, a)?;
    let all = all_digits(&xs, a);
    let ys = leading(alloc, &xs, a, many as usize)?;
    put_shown(alloc, out, &ys, a, many, all)?;
    Ok(())
}

/// Writes a real without its sign.
fn put_unsigned(alloc: Global, out: &mut Vec<u8>, a: u64, many: u32) -> Result<(), NoMemory>
    requires { 0 < many }
    ensures { OnOk result (out.new.items ≡ out.old.items ++ unsigned_general many a (real_of a)) }
{
    let x = real_of_code(a);
    if x.is_finite() {
        put_general(alloc, out, a, many)?;
        return Ok(());
    }
    if x != x {
        out.extend_from_slice(b"nan")?;
        return Ok(());
    }
    out.extend_from_slice(b"inf")?;
    Ok(())
}

/// The text of a real with so many digits, where 0 counts as 1: what `%g` writes with that precision.
pub fn general_text(alloc: Global, many: u32, a: u64) -> Result<Vec<u8>, NoMemory>
    ensures { IfOk result (λ text. text.items ≡ general_text_of many a) }
{
    let mut out = Vec::new(alloc);
    put_sign(&mut out, a)?;
    put_unsigned(alloc, &mut out, a, many.max(1))?;
    Ok(out)
}
