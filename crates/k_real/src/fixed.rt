//! Texts of reals with a fixed number of digits behind the point, from the exact value.
ghost use Rattle.std.specs.Prelude.{◌≡◌, ◌+◌, ◌*◌, ◌-◌, ◌/◌, ◌^◌, ◌<◌, ◌≤◌, ◌++◌, max, IfOk, OnOk, ◌==◌, if◌then◌else◌, [], ◌∷◌};
ghost use Rattle.std.specs.Float.{is_sign_negative};
ghost use Rattle.k_real.specs.Codes.{real_of};
ghost use Rattle.k_real.specs.Digits.{value, AreDigits, Spells};
ghost use Rattle.k_real.specs.Sizes.{unit_places, field as field_of, significand as significand_of, exponent as exponent_of, places as places_of, exact as exact_of};
ghost use Rattle.k_real.specs.Texts.{digits, count, scaled, fraction, pointed, unsigned_text, fixed_text as fixed_text_of};

use crate::codes::real_of_code;
use crate::digits::{digits_of, put_digits, times_power, with_places};
use k_num::NoMemory;
use std::alloc::Global;

/// The field of the exponent, which is 2047 of the infinities and the NaN.
fn field(a: u64) -> u64
    ensures value { result ≡ field_of a }
    ensures below { result < 2048 }
{
    a % 0x8000_0000_0000_0000 / 0x10_0000_0000_0000
}

/// The digits in binary that a code stands for, and below for which power of 2 they count.
fn significand(a: u64) -> u64
    ensures { result ≡ significand_of a }
{
    let low = a % 0x10_0000_0000_0000;
    if field(a) == 0 {
        low
    } else {
        0x10_0000_0000_0000 + low
    }
}

fn exponent(a: u64) -> usize
    ensures value { result ≡ exponent_of a }
    ensures below { result < 2048 }
{
    (field(a) as usize).saturating_sub(1)
}

/// By which power of 2 a whole number is more than its digits.
#[tactic(auto, unfolding(crate::specs::Sizes::unit_places))]
fn beyond(a: u64) -> usize
    ensures { result ≡ exponent_of a - unit_places }
{
    exponent(a).saturating_sub(1074)
}

/// How many digits may stand behind the point.
#[tactic(auto, unfolding(crate::specs::Sizes::unit_places))]
pub(crate) fn places(a: u64) -> usize
    ensures value { result ≡ places_of a }
    ensures few { result ≤ 1074 }
{
    1074usize.saturating_sub(exponent(a))
}

/// All digits of the exact value.
pub(crate) fn exact(alloc: Global, a: u64) -> Result<Vec<u8>, NoMemory>
    ensures { IfOk result (λ ys. Spells ys.items (exact_of a)) }
{
    let xs = digits_of(alloc, significand(a))?;
    let ys = times_power(alloc, xs, 2, beyond(a))?;
    let zs = times_power(alloc, ys, 5, places(a))?;
    Ok(zs)
}

/// The digits of a finite real, rounded to so many behind the point.
pub(crate) fn rounded(alloc: Global, a: u64, many: usize) -> Result<Vec<u8>, NoMemory>
    requires { field_of a < 2047 }
    ensures { IfOk result (λ ys. Spells ys.items (scaled many (real_of a))) }
{
    let xs = exact(alloc, a)?;
    let ys = with_places(alloc, &xs, places(a), many)?;
    Ok(ys)
}

/// Writes what stands before the point.
pub(crate) fn put_whole(out: &mut Vec<u8>, ys: &[u8], many: usize) -> Result<(), NoMemory>
    requires { AreDigits ys.now }
    ensures { OnOk result (out.new.items ≡ out.old.items ++ digits (max 1 (count (value ys.now / 10 ^ many))) (value ys.now / 10 ^ many)) }
{
    if many < ys.len() {
        put_digits(out, &ys[many..], ys.len() - many)?;
        return Ok(());
    }
    put_digits(out, &[], 1)?;
    Ok(())
}

/// Writes the point and what stands behind it, if anything does.
pub(crate) fn put_fraction(out: &mut Vec<u8>, ys: &[u8], many: usize) -> Result<(), NoMemory>
    requires { AreDigits ys.now }
    ensures { OnOk result (out.new.items ≡ out.old.items ++ fraction many (value ys.now)) }
{
    if many > 0 {
        out.push(b'.')?;
        put_digits(out, ys, many)?;
        return Ok(());
    }
    Ok(())
}

/// Writes a finite real without its sign.
fn put_fixed(alloc: Global, out: &mut Vec<u8>, a: u64, many: usize) -> Result<(), NoMemory>
    requires { field_of a < 2047 }
    ensures { OnOk result (out.new.items ≡ out.old.items ++ pointed many (scaled many (real_of a))) }
{
    let ys = rounded(alloc, a, many)?;
    put_whole(out, &ys, many)?;
    put_fraction(out, &ys, many)?;
    Ok(())
}

/// Whether a real is negative, which the NaN never is.
pub(crate) fn is_negative(x: f64) -> bool
    ensures { result ≡ is_sign_negative x }
{
    if x != x { false } else { x.is_sign_negative() }
}

/// Writes the sign of a negative real.
pub(crate) fn put_sign(out: &mut Vec<u8>, a: u64) -> Result<(), NoMemory>
    ensures { OnOk result (out.new.items ≡ out.old.items ++ (if is_sign_negative (real_of a) then 45 ∷ [] else [])) }
{
    if is_negative(real_of_code(a)) {
        out.push(b'-')?;
        return Ok(());
    }
    Ok(())
}

/// Writes a real without its sign.
fn put_unsigned(alloc: Global, out: &mut Vec<u8>, a: u64, many: usize) -> Result<(), NoMemory>
    ensures { OnOk result (out.new.items ≡ out.old.items ++ unsigned_text many (real_of a)) }
{
    let x = real_of_code(a);
    if x.is_finite() {
        put_fixed(alloc, out, a, many)?;
        return Ok(());
    }
    if x != x {
        out.extend_from_slice(b"nan")?;
        return Ok(());
    }
    out.extend_from_slice(b"inf")?;
    Ok(())
}

/// The text of a real with so many digits behind the point: what `%f` writes with that precision.
pub fn fixed_text(alloc: Global, many: usize, a: u64) -> Result<Vec<u8>, NoMemory>
    ensures { IfOk result (λ text. text.items ≡ fixed_text_of many (real_of a)) }
{
    let mut out = Vec::new(alloc);
    put_sign(&mut out, a)?;
    put_unsigned(alloc, &mut out, a, many)?;
    Ok(out)
}
