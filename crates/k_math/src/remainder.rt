//! `fmod`: what is left of a real when another one is taken from it as often as it goes, by whole numbers alone.
ghost use Rattle.std.specs.Prelude.{◌≡◌, ◌<◌, ◌≤◌, ◌*◌, ◌/◌, ◌%◌, ◌^◌, true, false};
ghost use Rattle.std.specs.Float.{binary64, float_is_finite};
ghost use Rattle.std.specs.Float.Ieee.{rem};
ghost use Rattle.std.specs.Float.Ieee.Exact.{HasValue};
ghost use Rattle.k_real.specs.Sizes.{unit_places, field as field_of, significand as significand_of, exponent as exponent_of};
ghost use Rattle.k_math.specs.Remainder.{units, of_units};

use crate::doubles::{is_negative, not_a_number, signed};
use crate::scaling::FIELD;
use k_real::{code_of, real_of_code};
use std::num::nearest_u64_to_f64;

/// The field of the exponent in a code.
#[inline]
fn field(a: u64) -> u64
    ensures value { result ≡ field_of a }
    ensures below { result < 2048 }
{
    a % 0x8000_0000_0000_0000 / FIELD
}

/// The digits of base 2 of a finite double, as a whole number.
#[inline]
fn significand(a: u64) -> u64
    ensures value { result ≡ significand_of a }
    ensures below { result < 2 ^ 53 }
{
    if field(a) == 0 {
        a % FIELD
    } else {
        FIELD + a % FIELD
    }
}

/// How often they are doubled, in units of 2^-1074.
#[inline]
fn exponent(a: u64) -> u64
    ensures value { result ≡ exponent_of a }
    ensures below { result < 2047 }
{
    field(a).saturating_sub(1)
}

/// Twice a number that is below `n`, modulo `n`.
#[inline]
fn doubled(rest: u64, n: u64) -> u64
    requires below { rest < n }
    requires small { n < 2 ^ 53 }
    ensures { result ≡ rest * 2 % n }
{
    let twice = rest + rest;
    if twice < n { twice } else { twice - n }
}

/// `m * 2^times` modulo `n`, in so many doublings.
fn left_over(m: u64, times: u64, n: u64) -> u64
    requires some { 0 < n }
    requires small { n < 2 ^ 53 }
    ensures value { result ≡ m * 2 ^ times % n }
    ensures below { result < n }
{
    let mut rest = m % n;
    for _k in 0..times {
        rest = doubled(rest, n);
    }
    rest
}

/// `2^k` units.
#[inline]
fn unit_power(k: u64) -> f64
    requires { k < 2047 }
    ensures { HasValue result false (2 ^ k) (2 ^ unit_places) }
{
    if k < 52 {
        real_of_code(1 << k)
    } else {
        real_of_code((k - 51) * FIELD)
    }
}

/// `n * 2^k` units.
#[inline]
fn in_units(n: u64, k: u64) -> f64
    requires small { n < 2 ^ 53 }
    requires power { k < 2047 }
    ensures { result ≡ of_units (n * 2 ^ k) }
{
    nearest_u64_to_f64(n) * unit_power(k)
}

/// What is left of the size of a finite double, by codes.
fn of_sizes(a: u64, b: u64) -> f64
    requires { 0 < significand_of b }
    ensures { result ≡ of_units (units a % units b) }
{
    let (m, e) = (significand(a), exponent(a));
    let (n, d) = (significand(b), exponent(b));
    if e < d {
        in_units(m, e)
    } else {
        in_units(left_over(m, e - d, n), d)
    }
}

/// `fmod` of two finite doubles.
fn of_numbers(x: f64, y: f64) -> f64
    requires first { float_is_finite x ≡ true }
    requires second { float_is_finite y ≡ true }
    ensures { result ≡ rem binary64 x y }
{
    if y == 0.0 {
        not_a_number()
    } else {
        signed(is_negative(x), of_sizes(code_of(x), code_of(y)))
    }
}

/// `fmod` of a finite double and another.
fn of_number(x: f64, y: f64) -> f64
    requires { float_is_finite x ≡ true }
    ensures { result ≡ rem binary64 x y }
{
    if y.is_finite() {
        of_numbers(x, y)
    } else if y.is_infinite() {
        x
    } else {
        not_a_number()
    }
}

/// `fmod x y`.
pub(crate) fn remainder(x: f64, y: f64) -> f64
    ensures { result ≡ rem binary64 x y }
{
    if x.is_finite() {
        of_number(x, y)
    } else {
        not_a_number()
    }
}
