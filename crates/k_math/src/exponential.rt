//! `exp` and `exp2`.
ghost use Rattle.std.specs.Prelude.{◌≡◌};
ghost use Rattle.k_math.specs.Exponential.{less_multiple, reduced_by, exponential_by, exponential_of, exp_rounded, exp_of, exp2_of};

use crate::doubles::{infinity, nearest};
use crate::pair::{Pair, from_double, product, sum};
use crate::scaling::rounded;
use crate::series::series_behind;
use crate::tables::{FACTORIALS, LN_2, LN_2_FIRST, LN_2_SECOND, LN_2_THIRD, LOG2_E};
use std::num::saturating_f64_to_i32;

/// Above this e^x is an infinity.
pub(crate) const EXP_UP_TO: f64 = 710.0;

/// Below this it is 0.
pub(crate) const EXP_FROM: f64 = -746.0;

pub(crate) const EXP2_UP_TO: f64 = 1025.0;

pub(crate) const EXP2_FROM: f64 = -1080.0;

/// `value * 2^power`.
#[derive(Clone, Copy)]
pub(crate) struct Scaled {
    pub(crate) value: Pair,
    pub(crate) power: i32,
}

#[inline]
fn scaled_by(value: Pair, power: i32) -> Scaled
    ensures { result ≡ record { value = value; power = power } }
{
    Scaled { value, power }
}

#[inline]
#[tactic(auto, unfolding(crate::specs::Exponential::less_multiple))]
fn less(a: Pair, k: f64, part: f64) -> Pair
    ensures { result ≡ less_multiple a k part }
{
    sum(a, from_double(-(k * part)))
}

#[tactic(auto, unfolding(crate::specs::Exponential::reduced_by))]
fn reduced(k: f64, a: Pair) -> Pair
    ensures { result ≡ reduced_by k a }
{
    less(less(less(a, k, LN_2_FIRST), k, LN_2_SECOND), k, LN_2_THIRD)
}

#[tactic(auto, unfolding(crate::specs::Exponential::exponential_by))]
fn exponential_with(k: f64, a: Pair) -> Scaled
    ensures { result ≡ exponential_by k a }
{
    scaled_by(
        series_behind(reduced(k, a), 2, &FACTORIALS),
        saturating_f64_to_i32(k),
    )
}

/// `e^a`, for an `a` below 800 in size.
#[tactic(auto, unfolding(crate::specs::Exponential::exponential_of))]
pub(crate) fn exponential(a: Pair) -> Scaled
    ensures { result ≡ exponential_of a }
{
    exponential_with(nearest(a.high * LOG2_E.high), a)
}

/// `e^a` rounded to a double.
#[tactic(auto, unfolding(crate::specs::Exponential::exp_rounded))]
pub(crate) fn exp_pair(a: Pair) -> f64
    ensures { result ≡ exp_rounded a }
{
    if a.high > EXP_UP_TO {
        infinity()
    } else if a.high < EXP_FROM {
        0.0
    } else {
        let e = exponential(a);
        rounded(e.value, i64::from(e.power))
    }
}

/// `exp x`.
#[tactic(auto, unfolding(crate::specs::Exponential::exp_of))]
pub(crate) fn exp(x: f64) -> f64
    ensures { result ≡ exp_of x }
{
    if x.is_nan() {
        x
    } else if x > EXP_UP_TO {
        infinity()
    } else if x < EXP_FROM {
        0.0
    } else {
        exp_pair(from_double(x))
    }
}

/// `exp2 x`.
#[tactic(auto, unfolding(crate::specs::Exponential::exp2_of))]
pub(crate) fn exp2(x: f64) -> f64
    ensures { result ≡ exp2_of x }
{
    if x.is_nan() {
        x
    } else if x > EXP2_UP_TO {
        infinity()
    } else if x < EXP2_FROM {
        0.0
    } else {
        exp_pair(product(LN_2, from_double(x)))
    }
}
