//! `log`, `log2` and `log10`.
ghost use Rattle.std.specs.Prelude.{◌≡◌};
ghost use Rattle.k_math.specs.Logarithm.{twice_artanh, log_of_fraction, with_multiple, log_by, log_from, log_of_positive, is_positive_finite, log_at_edge, log_of, log_to, log2_of, log10_of};

use crate::doubles::{infinity, not_a_number};
use crate::pair::{ONE, Pair, TWO, exact_sum, from_double, product, quotient, sum};
use crate::scaling::{Parts, normalized};
use crate::series::series_behind;
use crate::tables::{LN_2_FIRST, LN_2_SECOND, LN_2_THIRD, LOG2_E, LOG10_E, ODD_NUMBERS};
use std::num::nearest_i64_to_f64;

/// The square root of 1/2.
pub(crate) const ROOT_HALF: f64 = 0.70710678118654752;

#[tactic(auto, unfolding(crate::specs::Logarithm::twice_artanh))]
fn artanh_twice(s: Pair) -> Pair
    ensures { result ≡ twice_artanh s }
{
    let p = series_behind(product(s, s), 1, &ODD_NUMBERS);
    product(product(p, s), from_double(TWO))
}

#[tactic(auto, unfolding(crate::specs::Logarithm::log_of_fraction))]
fn fraction_log(m: f64) -> Pair
    ensures { result ≡ log_of_fraction m }
{
    artanh_twice(quotient(from_double(m - ONE), exact_sum(m, ONE)))
}

#[tactic(auto, unfolding(crate::specs::Logarithm::with_multiple))]
fn and_multiple(k: f64, p: Pair) -> Pair
    ensures { result ≡ with_multiple k p }
{
    let first = sum(from_double(k * LN_2_FIRST), from_double(k * LN_2_SECOND));
    sum(first, sum(from_double(k * LN_2_THIRD), p))
}

#[tactic(auto, unfolding(crate::specs::Logarithm::log_by))]
fn log_with(m: f64, e: i64) -> Pair
    ensures { result ≡ log_by m e }
{
    and_multiple(nearest_i64_to_f64(e), fraction_log(m))
}

#[tactic(auto, unfolding(crate::specs::Logarithm::log_from))]
fn log_of_parts(p: Parts) -> Pair
    ensures { result ≡ log_from p }
{
    if p.fraction < ROOT_HALF {
        log_with(p.fraction * TWO, i64::from(p.exponent) - 1)
    } else {
        log_with(p.fraction, i64::from(p.exponent))
    }
}

/// `ln x`, of a positive finite `x`.
#[tactic(auto, unfolding(crate::specs::Logarithm::log_of_positive))]
pub(crate) fn log_pair(x: f64) -> Pair
    ensures { result ≡ log_of_positive x }
{
    log_of_parts(normalized(x))
}

#[inline]
fn is_ordinary(x: f64) -> bool
    ensures { result ≡ is_positive_finite x }
{
    0.0 < x && x < infinity()
}

#[tactic(auto, unfolding(crate::specs::Logarithm::log_at_edge))]
fn edge(x: f64) -> f64
    ensures { result ≡ log_at_edge x }
{
    if x == 0.0 {
        -infinity()
    } else if x == infinity() {
        x
    } else {
        not_a_number()
    }
}

/// `log x`.
#[tactic(auto, unfolding(crate::specs::Logarithm::log_of))]
pub(crate) fn log(x: f64) -> f64
    ensures { result ≡ log_of x }
{
    if is_ordinary(x) {
        let l = log_pair(x);
        l.high
    } else {
        edge(x)
    }
}

#[tactic(auto, unfolding(crate::specs::Logarithm::log_to))]
fn log_in(base: Pair, x: f64) -> f64
    ensures { result ≡ log_to base x }
{
    if is_ordinary(x) {
        let l = product(log_pair(x), base);
        l.high
    } else {
        edge(x)
    }
}

/// `log2 x`.
pub(crate) fn log2(x: f64) -> f64
    ensures { result ≡ log2_of x }
{
    log_in(LOG2_E, x)
}

/// `log10 x`.
pub(crate) fn log10(x: f64) -> f64
    ensures { result ≡ log10_of x }
{
    log_in(LOG10_E, x)
}
