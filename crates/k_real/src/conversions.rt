//! Conversions between reals and whole numbers, and between the precisions.
ghost use Rattle.std.specs.Prelude.{◌≡◌, IsTrue, ◌&&◌};
ghost use Rattle.std.specs.Float.{binary32, binary64, two_to, minus_two_to};
ghost use Rattle.std.specs.Float.Ieee.{of_int, le, lt};
ghost use Rattle.k_num.specs.Kind.{is_held};
ghost use Rattle.k_real.specs.Conversions.{of_whole, of_real, held, whole_of};

use crate::Precision;
use crate::codes::{code_of, code_of_single, real_of_code, single_of_code};
use k_num::{Kind, holds};
use std::num::{
    nearest_i64_to_f32, nearest_i64_to_f64, nearest_u64_to_f32, nearest_u64_to_f64,
    truncating_f64_to_i64, truncating_f64_to_u64,
};

/// 2^63 and 2^64.
const SIGNED_LIMIT: f64 = 9223372036854775808.0;

const UNSIGNED_LIMIT: f64 = 18446744073709551616.0;

fn single_of_whole(from: Kind, a: i128) -> f32
    requires { IsTrue (is_held from a) }
    ensures { result ≡ of_int binary32 a }
{
    if a < 0 {
        nearest_i64_to_f32(a as i64)
    } else {
        nearest_u64_to_f32(a as u64)
    }
}

fn double_of_whole(from: Kind, a: i128) -> f64
    requires { IsTrue (is_held from a) }
    ensures { result ≡ of_int binary64 a }
{
    if a < 0 {
        nearest_i64_to_f64(a as i64)
    } else {
        nearest_u64_to_f64(a as u64)
    }
}

/// The code of a number of a kind, rounded once to a precision.
pub fn to_real(from: Kind, wide: Precision, a: i128) -> u64
    requires { IsTrue (is_held from a) }
    ensures { result ≡ of_whole wide a }
{
    match wide {
        Precision::Single => code_of_single(single_of_whole(from, a)),
        Precision::Double => code_of(double_of_whole(from, a)),
    }
}

/// The code of a real, rounded once to a precision.
pub fn to_precision(wide: Precision, a: u64) -> u64
    ensures { result ≡ of_real wide a }
{
    match wide {
        Precision::Single => code_of_single(single_of_code(a)),
        Precision::Double => code_of(real_of_code(a)),
    }
}

/// Whether the number without its fraction is one of the signed kind of 64 bits.
fn is_signed(x: f64) -> bool
    ensures { result ≡ (le (minus_two_to 63) x && lt x (two_to 63)) }
{
    -SIGNED_LIMIT <= x && x < SIGNED_LIMIT
}

/// Whether it is above those, and of the unsigned kind of 64 bits.
fn is_above_signed(x: f64) -> bool
    ensures { result ≡ (le (two_to 63) x && lt x (two_to 64)) }
{
    SIGNED_LIMIT <= x && x < UNSIGNED_LIMIT
}

/// The number of the kind, where the kind has it.
fn held_by(kind: Kind, v: i128) -> Option<i128>
    ensures { result ≡ held kind v }
{
    if holds(kind, v) { Some(v) } else { None }
}

/// A real without its fraction, as a number of a kind; none where the kind doesn't hold that, and for the infinities and the NaN.
pub fn to_whole(kind: Kind, a: u64) -> Option<i128>
    ensures { result ≡ whole_of kind a }
{
    let x = real_of_code(a);
    if is_signed(x) {
        held_by(kind, i128::from(truncating_f64_to_i64(x)))
    } else if is_above_signed(x) {
        held_by(kind, i128::from(truncating_f64_to_u64(x)))
    } else {
        None
    }
}
