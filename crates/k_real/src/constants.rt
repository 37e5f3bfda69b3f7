//! The values of decimal floating constants.
ghost use Rattle.std.specs.Prelude.{◌≡◌};
ghost use Rattle.std.specs.Option.{option_and_then};
ghost use Rattle.std.specs.Float.{binary32, binary64};
ghost use Rattle.std.specs.Float.Parse.{parse_float};
ghost use Rattle.k_real.specs.Constants.{begins_number as begins, is_no_integer as no_integer, finite_code as finite, constant};

use crate::Precision;
use crate::codes::code_of;
use std::num::f32_to_f64_with_nan;

/// Whether a text begins with a digit or a point.
fn begins_number(text: &[u8]) -> bool
    ensures { result ≡ begins text.now }
{
    match text.split_first() {
        None => false,
        Some((b, _later)) => b.is_ascii_digit() || *b == b'.',
    }
}

/// Whether a point or an exponent stands in it.
fn is_no_integer(text: &[u8]) -> bool
    ensures { result ≡ no_integer text.now }
{
    let mut rest = text;
    while let Some((b, later)) = rest.split_first() {
        if *b == b'.' || *b == b'e' || *b == b'E' {
            return true;
        }
        rest = later;
    }
    false
}

/// The code of a finite real.
fn finite_code(x: f64) -> Option<u64>
    ensures { result ≡ finite x }
{
    if x.is_finite() {
        Some(code_of(x))
    } else {
        None
    }
}

fn double_constant(text: &str) -> Option<u64>
    ensures { result ≡ option_and_then finite (parse_float binary64 text.now) }
{
    match text.parse::<f64>() {
        Ok(x) => finite_code(x),
        Err(_error) => None,
    }
}

fn single_constant(text: &str) -> Option<u64>
    ensures { result ≡ option_and_then finite (parse_float binary32 text.now) }
{
    match text.parse::<f32>() {
        Ok(x) => finite_code(f32_to_f64_with_nan(x)),
        Err(_error) => None,
    }
}

/// The code of a decimal floating constant, its suffix taken off, rounded once to a precision; none where the text is no such constant or its
/// value rounds to an infinity.
pub fn decimal_constant(p: Precision, text: &str) -> Option<u64>
    ensures { result ≡ constant p text.now }
{
    if begins_number(text.as_bytes()) && is_no_integer(text.as_bytes()) {
        match p {
            Precision::Single => single_constant(text),
            Precision::Double => double_constant(text),
        }
    } else {
        None
    }
}
