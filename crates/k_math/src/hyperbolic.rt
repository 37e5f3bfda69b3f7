//! `sinh`, `cosh` and `tanh`.
ghost use Rattle.std.specs.Prelude.{◌≡◌};
ghost use Rattle.k_math.specs.Hyperbolic.{cut_size, growing, inverse_of, half_exponential, large_of, half_difference, half_sum, ratio, sinh_of_size, cosh_of_size, tanh_of_size, sinh_of, cosh_of, tanh_of};

use crate::doubles::{infinity, is_tame, signed};
use crate::exponential::exponential;
use crate::pair::{ONE, Pair, from_double, negated, quotient, sum};
use crate::scaling::{pair_scaled, rounded};

pub(crate) const SIZE_UP_TO: f64 = 1000.0;

pub(crate) const SMALL_UP_TO: f64 = 40.0;

pub(crate) const LARGE_UP_TO: f64 = 711.0;

fn cut(x: f64) -> f64
    ensures { result ≡ cut_size x }
{
    if x.abs() > SIZE_UP_TO {
        SIZE_UP_TO
    } else {
        x.abs()
    }
}

#[tactic(auto, unfolding(crate::specs::Hyperbolic::growing))]
fn power(a: f64) -> Pair
    ensures { result ≡ growing a }
{
    let e = exponential(from_double(a));
    pair_scaled(e.value, i64::from(e.power))
}

#[tactic(auto, unfolding(crate::specs::Hyperbolic::inverse_of))]
fn inverse(p: Pair) -> Pair
    ensures { result ≡ inverse_of p }
{
    quotient(from_double(ONE), p)
}

#[tactic(auto, unfolding(crate::specs::Hyperbolic::half_exponential))]
fn half_power(a: f64) -> f64
    ensures { result ≡ half_exponential a }
{
    let e = exponential(from_double(a));
    rounded(e.value, i64::from(e.power) - 1)
}

#[tactic(auto, unfolding(crate::specs::Hyperbolic::large_of))]
fn large(a: f64) -> f64
    ensures { result ≡ large_of a }
{
    if a > LARGE_UP_TO {
        infinity()
    } else {
        half_power(a)
    }
}

#[tactic(auto, unfolding(crate::specs::Hyperbolic::half_difference))]
fn halved_difference(p: Pair) -> Pair
    ensures { result ≡ half_difference p }
{
    pair_scaled(sum(p, negated(inverse(p))), -1)
}

#[tactic(auto, unfolding(crate::specs::Hyperbolic::half_sum))]
fn halved_sum(p: Pair) -> Pair
    ensures { result ≡ half_sum p }
{
    pair_scaled(sum(p, inverse(p)), -1)
}

#[tactic(auto, unfolding(crate::specs::Hyperbolic::ratio))]
fn ratio_of(p: Pair) -> Pair
    ensures { result ≡ ratio p }
{
    let q = inverse(p);
    quotient(sum(p, negated(q)), sum(p, q))
}

#[tactic(auto, unfolding(crate::specs::Hyperbolic::sinh_of_size))]
fn sinh_size(a: f64) -> f64
    ensures { result ≡ sinh_of_size a }
{
    if a > SMALL_UP_TO {
        large(a)
    } else {
        let half = halved_difference(power(a));
        half.high
    }
}

#[tactic(auto, unfolding(crate::specs::Hyperbolic::cosh_of_size))]
fn cosh_size(a: f64) -> f64
    ensures { result ≡ cosh_of_size a }
{
    if a > SMALL_UP_TO {
        large(a)
    } else {
        let half = halved_sum(power(a));
        half.high
    }
}

#[tactic(auto, unfolding(crate::specs::Hyperbolic::tanh_of_size))]
fn tanh_size(a: f64) -> f64
    ensures { result ≡ tanh_of_size a }
{
    if a > SMALL_UP_TO {
        ONE
    } else {
        let q = ratio_of(power(a));
        q.high
    }
}

/// `sinh x`.
#[tactic(auto, unfolding(crate::specs::Hyperbolic::sinh_of))]
pub(crate) fn sinh(x: f64) -> f64
    ensures { result ≡ sinh_of x }
{
    if x.is_nan() || is_tame(x) {
        x
    } else {
        signed(x < 0.0, sinh_size(cut(x)))
    }
}

/// `cosh x`.
#[tactic(auto, unfolding(crate::specs::Hyperbolic::cosh_of))]
pub(crate) fn cosh(x: f64) -> f64
    ensures { result ≡ cosh_of x }
{
    if x.is_nan() { x } else { cosh_size(cut(x)) }
}

/// `tanh x`.
#[tactic(auto, unfolding(crate::specs::Hyperbolic::tanh_of))]
pub(crate) fn tanh(x: f64) -> f64
    ensures { result ≡ tanh_of x }
{
    if x.is_nan() || is_tame(x) {
        x
    } else {
        signed(x < 0.0, tanh_size(cut(x)))
    }
}
