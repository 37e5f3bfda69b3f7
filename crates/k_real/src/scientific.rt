//! Texts of reals with an exponent, from the exact value.
ghost use Rattle.std.specs.Prelude.{◌≡◌, ◌+◌, ◌*◌, ◌-◌, ◌/◌, ◌%◌, ◌^◌, ◌<◌, ◌≤◌, ◌++◌, IfOk, OnOk, [], ◌∷◌};
ghost use Rattle.k_real.specs.Codes.{real_of};
ghost use Rattle.k_real.specs.Digits.{value, AreDigits, Spells};
ghost use Rattle.k_real.specs.Sizes.{exact as exact_of};
ghost use Rattle.k_real.specs.Scientific.{all_digits as all_digits_of, leading as leading_of, exponent_digits, signed_digits, one_digit, scientific, unsigned_scientific, scientific_text as scientific_text_of};

use crate::codes::real_of_code;
use crate::digits::{digit_at, with_places};
use crate::fixed::{exact, places, put_fraction, put_sign};
use k_num::NoMemory;
use std::alloc::Global;

/// How many digits stand from the first that is not 0.
pub(crate) fn all_digits(xs: &[u8], a: u64) -> usize
    requires { Spells xs.now (exact_of a) }
    ensures { result ≡ all_digits_of a }
{
    if xs.len() > 0 {
        return xs.len();
    }
    places(a) + 1
}

/// The first digits of a double, rounded.
pub(crate) fn leading(alloc: Global, xs: &[u8], a: u64, many: usize) -> Result<Vec<u8>, NoMemory>
    requires { Spells xs.now (exact_of a) }
    ensures { IfOk result (λ ys. Spells ys.items (leading_of many a)) }
{
    let ys = with_places(alloc, xs, xs.len(), many)?;
    Ok(ys)
}

/// Writes the digit of a number that counts for a power of 10.
fn put_low(out: &mut Vec<u8>, n: usize, power: usize) -> Result<(), NoMemory>
    requires { 0 < power }
    ensures { OnOk result (out.new.items ≡ out.old.items ++ (48 + n / power % 10) ∷ []) }
{
    out.push(b'0' + (n / power % 10) as u8)?;
    Ok(())
}

/// Writes the last two digits of a number.
fn put_two(out: &mut Vec<u8>, n: usize) -> Result<(), NoMemory>
    ensures { OnOk result (out.new.items ≡ out.old.items ++ (48 + n / 10 % 10) ∷ (48 + n / 1 % 10) ∷ []) }
{
    put_low(out, n, 10)?;
    put_low(out, n, 1)?;
    Ok(())
}

/// Writes two digits of a number, and three from 100 on.
fn put_exponent_digits(out: &mut Vec<u8>, n: usize) -> Result<(), NoMemory>
    ensures { OnOk result (out.new.items ≡ out.old.items ++ exponent_digits n) }
{
    if n < 100 {
        put_two(out, n)?;
        return Ok(());
    }
    put_low(out, n, 100)?;
    put_two(out, n)?;
    Ok(())
}

/// Writes the difference of two numbers as an exponent.
pub(crate) fn put_exponent(out: &mut Vec<u8>, c: usize, k: usize) -> Result<(), NoMemory>
    ensures { OnOk result (out.new.items ≡ out.old.items ++ signed_digits c k) }
{
    if c < k {
        out.push(b'-')?;
        put_exponent_digits(out, k - c)?;
        return Ok(());
    }
    out.push(b'+')?;
    put_exponent_digits(out, c - k)?;
    Ok(())
}

/// Writes a number with the point behind its first digit.
fn put_one_digit(
    out: &mut Vec<u8>,
    ys: &[u8],
    many: usize,
    c: usize,
    k: usize,
) -> Result<(), NoMemory>
    requires { AreDigits ys.now }
    ensures { OnOk result (out.new.items ≡ out.old.items ++ one_digit many (value ys.now) c k) }
{
    out.push(b'0' + digit_at(ys, many))?;
    put_fraction(out, ys, many)?;
    out.push(b'e')?;
    put_exponent(out, c, k)?;
    Ok(())
}

/// Writes what the first digits are, and the exponent.
fn put_leading(out: &mut Vec<u8>, ys: &[u8], a: u64, all: usize, many: u32) -> Result<(), NoMemory>
    requires digits { Spells ys.now (leading_of (many + 1) a) }
    requires all { all ≡ all_digits_of a }
    ensures { OnOk result (out.new.items ≡ out.old.items ++ scientific many a) }
{
    let many = many as usize;
    if many + 1 < ys.len() {
        put_one_digit(out, &ys[1..], many, all, places(a))?;
        return Ok(());
    }
    put_one_digit(out, ys, many, all, places(a) + 1)?;
    Ok(())
}

/// Writes a finite real without its sign.
fn put_scientific(alloc: Global, out: &mut Vec<u8>, a: u64, many: u32) -> Result<(), NoMemory>
    ensures { OnOk result (out.new.items ≡ out.old.items ++ scientific many a) }
{
    let xs = exact(alloc, a)?;
    let all = all_digits(&xs, a);
    let ys = leading(alloc, &xs, a, many as usize + 1)?;
    put_leading(out, &ys, a, all, many)?;
    Ok(())
}

/// Writes a real without its sign.
fn put_unsigned(alloc: Global, out: &mut Vec<u8>, a: u64, many: u32) -> Result<(), NoMemory>
    ensures { OnOk result (out.new.items ≡ out.old.items ++ unsigned_scientific many a (real_of a)) }
{
    let x = real_of_code(a);
    if x.is_finite() {
        put_scientific(alloc, out, a, many)?;
        return Ok(());
    }
    if x != x {
        out.extend_from_slice(b"nan")?;
        return Ok(());
    }
    out.extend_from_slice(b"inf")?;
    Ok(())
}

/// The text of a real with an exponent and so many digits behind the point: what `%e` writes with that precision.
pub fn scientific_text(alloc: Global, many: u32, a: u64) -> Result<Vec<u8>, NoMemory>
    ensures { IfOk result (λ text. text.items ≡ scientific_text_of many a) }
{
    let mut out = Vec::new(alloc);
    put_sign(&mut out, a)?;
    put_unsigned(alloc, &mut out, a, many)?;
    Ok(out)
}
