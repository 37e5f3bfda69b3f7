//! Numbers of any size as lists of their decimal digits, the lowest first and the highest not 0.
ghost use Rattle.std.specs.Prelude.{◌≡◌, ◌≤◌, ◌<◌, ◌+◌, ◌*◌, ◌/◌, ◌%◌, ◌^◌, ◌-◌, ◌++◌, IfOk, OnOk, length, not, ◌==◌, get_or, replicate, if◌then◌else◌};
ghost use Prim.Native.Nat.{compare};
ghost use Rattle.std.specs.Float.Ieee.Nearest.{closest};
ghost use Rattle.k_real.specs.Digits.{value, AreDigits, Spells, multiplied, is_up, up_by};
ghost use Rattle.k_real.specs.Texts.{digits};

use k_num::NoMemory;
use std::alloc::Global;

/// The digits of `factor` times the number and a digit more.
fn list_times(alloc: Global, xs: &[u8], factor: u32, more: u32) -> Result<Vec<u8>, NoMemory>
    requires factor { factor ≤ 9 }
    requires more { more ≤ 9 }
    ensures { IfOk result (λ ys. ys.items ≡ multiplied factor more xs.now) }
{
    let mut ys = Vec::new(alloc);
    let mut carry = more;
    let mut rest = xs;
    while let Some((x, later)) = rest.split_first() {
        let sum = u32::from(*x) * factor + carry;
        ys.push((sum % 10) as u8)?;
        carry = sum / 10;
        rest = later;
    }
    if carry != 0 {
        ys.push(carry as u8)?;
    }
    Ok(ys)
}

/// The digits of `factor` times the number and a digit more.
pub(crate) fn times(alloc: Global, xs: &[u8], factor: u32, more: u32) -> Result<Vec<u8>, NoMemory>
    requires low { 1 ≤ factor }
    requires factor { factor ≤ 9 }
    requires more { more ≤ 9 }
    requires digits { AreDigits xs.now }
    ensures { IfOk result (λ ys. Spells ys.items (value xs.now * factor + more)) }
{
    let ys = list_times(alloc, xs, factor, more)?;
    Ok(ys)
}

/// The digits of the number times a power.
pub(crate) fn times_power(
    alloc: Global,
    xs: Vec<u8>,
    factor: u32,
    power: usize,
) -> Result<Vec<u8>, NoMemory>
    requires low { 1 ≤ factor }
    requires factor { factor ≤ 9 }
    requires digits { AreDigits xs.items }
    ensures { IfOk result (λ ys. Spells ys.items (value xs.items * factor ^ power)) }
{
    let mut ys = xs;
    for _k in 0..power {
        ys = times(alloc, &ys, factor, 0)?;
    }
    Ok(ys)
}

/// The bit at a place.
fn bit_at(n: u64, at: u32) -> u32
    requires { at < 64 }
    ensures value { result ≡ n / 2 ^ at % 2 }
    ensures below { result < 2 }
{
    ((n >> at) % 2) as u32
}

/// The digits of a number.
pub(crate) fn digits_of(alloc: Global, n: u64) -> Result<Vec<u8>, NoMemory>
    ensures { IfOk result (λ ys. Spells ys.items n) }
{
    let mut ys = Vec::new(alloc);
    let mut left = 64u32;
    while left > 0 {
        left -= 1;
        ys = times(alloc, &ys, 2, bit_at(n, left))?;
    }
    Ok(ys)
}

/// Whether a number is 0.
fn is_zero(xs: &[u8]) -> bool
    ensures { result ≡ (value xs.now == 0) }
{
    let mut rest = xs;
    while let Some((x, later)) = rest.split_first() {
        if *x != 0 {
            return false;
        }
        rest = later;
    }
    true
}

/// The item at a place, and 0 behind the last.
fn item_at(xs: &[u8], at: usize) -> u8
    ensures { result ≡ get_or xs.now at 0 }
{
    if at < xs.len() { xs[at] } else { 0 }
}

/// The digit at a place, the lowest at 0; above the highest they are 0.
pub(crate) fn digit_at(xs: &[u8], at: usize) -> u8
    requires { AreDigits xs.now }
    ensures below { result < 10 }
    ensures value { result ≡ value xs.now / 10 ^ at % 10 }
{
    item_at(xs, at)
}

/// Writes the lowest digits, the highest of them first.
pub(crate) fn put_digits(out: &mut Vec<u8>, xs: &[u8], many: usize) -> Result<(), NoMemory>
    requires { AreDigits xs.now }
    ensures { OnOk result (out.new.items ≡ out.old.items ++ digits many (value xs.now)) }
{
    let mut left = many;
    while left > 0 {
        left -= 1;
        out.push(b'0' + digit_at(xs, left))?;
    }
    Ok(())
}

/// Whether a number is to be one more, by the first digit that was cut off, whether the others are zeros, and its own last digit.
fn is_more(first: u8, is_exact: bool, last: u8) -> bool
    ensures { result ≡ up_by first is_exact last }
{
    if first != 5 {
        first > 5
    } else if is_exact {
        last % 2 == 1
    } else {
        true
    }
}

/// Whether the number without its lowest digits is to be one more, to be the nearest, at a tie an even one.
fn rounds_up(xs: &[u8], many: usize) -> bool
    requires digits { AreDigits xs.now }
    requires some { 0 < many }
    requires within { many ≤ length xs.now }
    ensures { result ≡ is_up (value xs.now / 10 ^ many) (compare (value xs.now % 10 ^ many * 2) (10 ^ many)) }
{
    is_more(
        digit_at(xs, many - 1),
        is_zero(&xs[..many - 1]),
        digit_at(xs, many),
    )
}

/// 1 where the test holds, and 0 where not.
fn one_if(test: bool) -> u32
    ensures value { result ≡ (if test then 1 else 0) }
    ensures below { result ≤ 1 }
{
    if test { 1 } else { 0 }
}

/// The digits of the number without its lowest digits, rounded to nearest, ties to even.
fn narrowed(alloc: Global, xs: &[u8], many: usize) -> Result<Vec<u8>, NoMemory>
    requires digits { AreDigits xs.now }
    requires some { 0 < many }
    ensures { IfOk result (λ ys. Spells ys.items (closest (value xs.now) (10 ^ many))) }
{
    if many > xs.len() {
        return Ok(Vec::new(alloc));
    }
    let ys = times(alloc, &xs[many..], 1, one_if(rounds_up(xs, many)))?;
    Ok(ys)
}

/// So many zeros.
fn zeros(alloc: Global, many: usize) -> Result<Vec<u8>, NoMemory>
    ensures { IfOk result (λ ys. ys.items ≡ replicate many 0) }
{
    let mut ys = Vec::new(alloc);
    for _k in 0..many {
        ys.push(0)?;
    }
    Ok(ys)
}

/// The digits of the number times a power of 10.
fn widened(alloc: Global, xs: &[u8], many: usize) -> Result<Vec<u8>, NoMemory>
    requires { AreDigits xs.now }
    ensures { IfOk result (λ ys. Spells ys.items (value xs.now * 10 ^ many)) }
{
    if xs.len() > 0 {
        let mut ys = zeros(alloc, many)?;
        ys.extend_from_slice(xs)?;
        return Ok(ys);
    }
    Ok(Vec::new(alloc))
}

/// The digits of a number with `from` digits behind the point, as one with `to` of them, rounded to nearest, ties to even.
pub(crate) fn with_places(
    alloc: Global,
    xs: &[u8],
    from: usize,
    to: usize,
) -> Result<Vec<u8>, NoMemory>
    requires { AreDigits xs.now }
    ensures { IfOk result (λ ys. Spells ys.items (closest (value xs.now * 10 ^ (to - from)) (10 ^ (from - to)))) }
{
    if from > to {
        let fewer = narrowed(alloc, xs, from - to)?;
        return Ok(fewer);
    }
    let more = widened(alloc, xs, to - from)?;
    Ok(more)
}
