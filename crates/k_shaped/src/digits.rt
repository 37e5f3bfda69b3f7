//! Whole numbers.
ghost use Rattle.std.specs.Prelude.{◌≡◌, ◌<◌, ◌^◌, ◌++◌, false, true, length, OnOk, IfOk, pos, int_lt, unsigned_abs};
ghost use Rattle.std.specs.Fmt.{digits as digits_of};
ghost use Rattle.k_shaped.specs.Texts.{sign as sign_of, prefix as prefix_of, some_digits, based_digits as based_digits_of, least as least_of, raised as raised_of, at_least as at_least_of, number_text, decimal_text, based_text, precision_or};

use crate::Shape;
use crate::padding::{put_many, put_padded};
use itoa::Buffer;
use k_num::NoMemory;
use std::alloc::Global;

/// The sign that stands before a number.
#[tactic(auto, unfolding(crate::specs::Texts::sign))]
pub(crate) fn sign(shape: Shape, negative: bool) -> &'static [u8]
    ensures { result.now ≡ sign_of shape negative }
{
    if negative {
        b"-"
    } else if shape.plus {
        b"+"
    } else if shape.space {
        b" "
    } else {
        b""
    }
}

/// What stands before the digits of `o x X`.
#[tactic(auto, unfolding(crate::specs::Texts::prefix))]
fn prefix(shape: Shape, v: u64) -> &'static [u8]
    ensures { result.now ≡ prefix_of shape v }
{
    if shape.hash && v != 0 {
        match shape.conversion {
            b'x' => b"0x",
            b'X' => b"0X",
            _ => b"",
        }
    } else {
        b""
    }
}

/// The precision, or what stands for it.
pub(crate) fn precision(shape: Shape, other: u32) -> u32
    ensures { result ≡ precision_or other shape.precision }
{
    match shape.precision {
        Some(given) => given,
        None => other,
    }
}

/// How many digits there are at least.
#[tactic(auto, unfolding(crate::specs::Texts::raised))]
fn raised(shape: Shape, ds: &[u8]) -> usize
    ensures { result ≡ raised_of shape ds.now }
{
    let least = precision(shape, 1) as usize;
    if shape.hash && shape.conversion == b'o' {
        least.max(ds.len() + 1)
    } else {
        least
    }
}

/// The digits of a number in decimal, none of 0.
#[tactic(auto, unfolding(crate::specs::Texts::some_digits))]
fn decimal_digits(alloc: Global, n: u128) -> Result<Vec<u8>, NoMemory>
    ensures { IfOk result (λ ds. ds.items ≡ some_digits 10 false n) }
{
    let mut ds = Vec::new(alloc);
    if n != 0 {
        let mut buffer = Buffer::new();
        ds.extend_from_slice(buffer.format(n).as_bytes())?;
        return Ok(ds);
    }
    Ok(ds)
}

/// The digits of a number in octal.
fn octal(alloc: Global, n: u64) -> Result<Vec<u8>, NoMemory>
    ensures { IfOk result (λ ds. ds.items ≡ digits_of 8 false n) }
{
    let text = format!(in alloc; "{n:o}")?;
    let ds = Vec::from_slice(alloc, text.as_bytes())?;
    Ok(ds)
}

/// The digits of a number in hexadecimal.
fn hexadecimal(alloc: Global, capital: bool, n: u64) -> Result<Vec<u8>, NoMemory>
    ensures { IfOk result (λ ds. ds.items ≡ digits_of 16 capital n) }
{
    if capital {
        let text = format!(in alloc; "{n:X}")?;
        let ds = Vec::from_slice(alloc, text.as_bytes())?;
        return Ok(ds);
    }
    let text = format!(in alloc; "{n:x}")?;
    let ds = Vec::from_slice(alloc, text.as_bytes())?;
    Ok(ds)
}

/// The digits of `o x X`, none of 0.
#[tactic(auto, unfolding(crate::specs::Texts::based_digits, crate::specs::Texts::some_digits))]
fn based_digits(alloc: Global, conversion: u8, n: u64) -> Result<Vec<u8>, NoMemory>
    ensures { IfOk result (λ ds. ds.items ≡ based_digits_of conversion n) }
{
    if n == 0 {
        return Ok(Vec::new(alloc));
    }
    if conversion == b'o' {
        return octal(alloc, n);
    }
    hexadecimal(alloc, conversion == b'X', n)
}

/// The digits behind so many zeros that there are at least so many.
#[tactic(auto, unfolding(crate::specs::Texts::at_least))]
fn at_least(alloc: Global, many: usize, ds: &[u8]) -> Result<Vec<u8>, NoMemory>
    ensures { IfOk result (λ body. body.items ≡ at_least_of many ds.now) }
{
    let mut body = Vec::new(alloc);
    put_many(&mut body, b'0', many.saturating_sub(ds.len()))?;
    body.extend_from_slice(ds)?;
    Ok(body)
}

/// Writes a sign or prefix and digits.
#[tactic(auto, unfolding(crate::specs::Texts::number_text))]
fn put_number(
    alloc: Global,
    out: &mut Vec<u8>,
    shape: Shape,
    head: &[u8],
    many: usize,
    ds: &[u8],
) -> Result<(), NoMemory>
    ensures { OnOk result (out.new.items ≡ out.old.items ++ number_text shape head.now many ds.now) }
{
    let body = at_least(alloc, many, ds)?;
    let zeros = shape.zero && shape.precision.is_none();
    put_padded(out, shape.minus, zeros, shape.width, head, &body)
}

/// Writes `d i u`.
#[tactic(auto, unfolding(crate::specs::Texts::decimal_text))]
pub(crate) fn put_decimal(
    alloc: Global,
    out: &mut Vec<u8>,
    shape: Shape,
    number: i128,
) -> Result<(), NoMemory>
    ensures { OnOk result (out.new.items ≡ out.old.items ++ decimal_text shape number) }
{
    let ds = decimal_digits(alloc, number.unsigned_abs())?;
    let head = sign(shape, number < 0);
    let many = precision(shape, 1) as usize;
    put_number(alloc, out, shape, head, many, &ds)
}

/// Writes `o x X`.
#[tactic(auto, unfolding(crate::specs::Texts::based_text))]
pub(crate) fn put_based(
    alloc: Global,
    out: &mut Vec<u8>,
    shape: Shape,
    v: u64,
) -> Result<(), NoMemory>
    ensures { OnOk result (out.new.items ≡ out.old.items ++ based_text shape v) }
{
    let ds = based_digits(alloc, shape.conversion, v)?;
    let many = raised(shape, &ds);
    put_number(alloc, out, shape, prefix(shape, v), many, &ds)
}
