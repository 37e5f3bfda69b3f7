//! The texts of conversions.
ghost use Rattle.std.specs.Prelude.{◌≡◌, ◌++◌, take, OnOk, IfOk};
ghost use Rattle.k_num.specs.Kind.{remainder};
ghost use Rattle.k_num.specs.declared.numbers.Kind.TheVariants.{U8, U64};
ghost use Rattle.k_shaped.specs.Texts.{byte_text, text as text_of, before_zero as before_zero_of, cut as cut_of, string_text};

use crate::Shape;
use crate::digits::{put_based, put_decimal};
use crate::letters::{is_based, is_real};
use crate::padding::put_padded;
use crate::reals::put_real;
use k_num::NoMemory;
use std::alloc::Global;

/// A number modulo 256.
fn low_byte(number: i128) -> u8
    ensures { result ≡ remainder U8 number }
{
    number.rem_euclid(1 << 8) as u8
}

/// A number modulo 2^64.
fn low_word(number: i128) -> u64
    ensures { result ≡ remainder U64 number }
{
    number.rem_euclid(1 << 64) as u64
}

/// Writes `c`.
#[tactic(auto, unfolding(crate::specs::Texts::byte_text))]
fn put_byte(out: &mut Vec<u8>, shape: Shape, byte: u8) -> Result<(), NoMemory>
    ensures { OnOk result (out.new.items ≡ out.old.items ++ byte_text shape byte) }
{
    put_padded(out, shape.minus, false, shape.width, b"", &[byte])
}

/// Writes what a conversion of a number gives behind what stands there. For `f F e E g G` the number is the code of a double.
#[tactic(auto, unfolding(crate::specs::Texts::text))]
pub fn shaped_text(
    alloc: Global,
    out: &mut Vec<u8>,
    shape: Shape,
    number: i128,
) -> Result<(), NoMemory>
    ensures { OnOk result (out.new.items ≡ out.old.items ++ text_of shape number) }
{
    if is_real(shape.conversion) {
        return put_real(alloc, out, shape, low_word(number));
    }
    if shape.conversion == b'c' {
        return put_byte(out, shape, low_byte(number));
    }
    if is_based(shape.conversion) {
        return put_based(alloc, out, shape, low_word(number));
    }
    put_decimal(alloc, out, shape, number)
}

/// The bytes before the first 0.
fn before_zero(alloc: Global, bytes: &[u8]) -> Result<Vec<u8>, NoMemory>
    ensures { IfOk result (λ text. text.items ≡ before_zero_of bytes.now) }
{
    let mut text = Vec::new(alloc);
    let mut rest = bytes;
    while let Some((b, more)) = rest.split_first() {
        if *b == 0 {
            return Ok(text);
        }
        text.push(*b)?;
        rest = more;
    }
    Ok(text)
}

/// At most so many bytes.
#[tactic(auto, using(std::proofs::lemmas::List::take_all))]
fn first(bytes: &[u8], many: usize) -> &[u8]
    ensures { result.now ≡ take many bytes.now }
{
    if many < bytes.len() {
        &bytes[..many]
    } else {
        bytes
    }
}

/// At most as many bytes as the precision says.
#[tactic(auto, unfolding(crate::specs::Texts::cut))]
fn cut(bytes: &[u8], precision: Option<u32>) -> &[u8]
    ensures { result.now ≡ cut_of precision bytes.now }
{
    match precision {
        Some(many) => first(bytes, many as usize),
        None => bytes,
    }
}

/// Writes what `%s` gives for an array behind what stands there: its bytes before the first 0, or all where there is none.
#[tactic(auto, unfolding(crate::specs::Texts::string_text))]
pub fn shaped_string(
    alloc: Global,
    out: &mut Vec<u8>,
    shape: Shape,
    bytes: &[u8],
) -> Result<(), NoMemory>
    ensures { OnOk result (out.new.items ≡ out.old.items ++ string_text shape bytes.now) }
{
    let text = before_zero(alloc, bytes)?;
    put_padded(
        out,
        shape.minus,
        false,
        shape.width,
        b"",
        cut(&text, shape.precision),
    )
}
