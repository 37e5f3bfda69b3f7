//! `pow`.
ghost use Rattle.std.specs.Prelude.{◌≡◌, ℕ};
ghost use Rattle.k_math.specs.Powers.{squared_once, squared, whole_power_of, by_squaring, goes_by_squaring, by_exponential, pow_within, pow_by, pow_of_positive, end_of, pow_to_infinity, pow_of_size, has_no_power, pow_of_number, pow_of};

use crate::doubles::{infinity, is_negative, is_odd, is_whole, not_a_number, signed};
use crate::exponential::exp_pair;
use crate::logarithm::log_pair;
use crate::pair::{ONE, Pair, from_double, product, quotient};
use std::num::saturating_f64_to_u32;

pub(crate) const WHOLE_UP_TO: f64 = 64.0;

pub(crate) const SQUARED_BELOW: f64 = 600.0;

pub(crate) const POW_UP_TO: f64 = 720.0;

pub(crate) const POW_FROM: f64 = -760.0;

pub(crate) const NEAR_ONE: f64 = 1e-20;

/// A power on its way: `product * base^left`.
#[derive(Clone, Copy)]
pub(crate) struct Squaring {
    pub(crate) product: Pair,
    pub(crate) base: Pair,
    pub(crate) left: u32,
}

#[tactic(auto, unfolding(crate::specs::Powers::squared_once))]
fn once(s: Squaring) -> Squaring
    ensures { result ≡ squared_once s }
{
    if s.left == 0 {
        s
    } else {
        Squaring {
            product: if s.left % 2 == 1 {
                product(s.product, s.base)
            } else {
                s.product
            },
            base: if s.left > 1 {
                product(s.base, s.base)
            } else {
                s.base
            },
            left: s.left / 2,
        }
    }
}

#[tactic(auto, unfolding(crate::specs::Powers::squared))]
fn often(start: Squaring, n: u32) -> Squaring
    ensures { result ≡ squared n start }
{
    let mut s = start;
    for _k in 0..n {
        s = once(s);
    }
    s
}

#[tactic(auto, unfolding(crate::specs::Powers::whole_power_of))]
fn whole_power(a: f64, n: u32) -> Pair
    ensures { result ≡ whole_power_of a n }
{
    let start = Squaring {
        product: from_double(ONE),
        base: from_double(a),
        left: n,
    };
    let last = often(start, 7);
    last.product
}

#[tactic(auto, unfolding(crate::specs::Powers::by_squaring))]
fn by_whole(a: f64, y: f64) -> f64
    ensures { result ≡ by_squaring a y }
{
    let p = whole_power(a, saturating_f64_to_u32(y.abs()));
    if y < 0.0 {
        let inverse = quotient(from_double(ONE), p);
        inverse.high
    } else {
        p.high
    }
}

#[tactic(auto, unfolding(crate::specs::Powers::goes_by_squaring))]
fn can_square(y: f64, t: f64, l: Pair) -> bool
    ensures { result ≡ goes_by_squaring y t l }
{
    is_whole(y) && y.abs() <= WHOLE_UP_TO && t.abs() < SQUARED_BELOW && l.high.abs() < SQUARED_BELOW
}

#[tactic(auto, unfolding(crate::specs::Powers::by_exponential))]
fn exponentially(y: f64, t: f64, l: Pair) -> f64
    ensures { result ≡ by_exponential y t l }
{
    if t.abs() < NEAR_ONE {
        ONE + t
    } else {
        exp_pair(product(l, from_double(y)))
    }
}

#[tactic(auto, unfolding(crate::specs::Powers::pow_within))]
fn within(a: f64, y: f64, t: f64, l: Pair) -> f64
    ensures { result ≡ pow_within a y t l }
{
    if can_square(y, t, l) {
        by_whole(a, y)
    } else {
        exponentially(y, t, l)
    }
}

#[tactic(auto, unfolding(crate::specs::Powers::pow_by))]
fn bounded(a: f64, y: f64, t: f64, l: Pair) -> f64
    ensures { result ≡ pow_by a y t l }
{
    if t > POW_UP_TO {
        infinity()
    } else if t < POW_FROM {
        0.0
    } else {
        within(a, y, t, l)
    }
}

#[tactic(auto, unfolding(crate::specs::Powers::pow_of_positive))]
fn of_positive(a: f64, y: f64) -> f64
    ensures { result ≡ pow_of_positive a y }
{
    let l = log_pair(a);
    bounded(a, y, y * l.high, l)
}

#[inline]
fn end(grows: bool) -> f64
    ensures { result ≡ end_of grows }
{
    if grows { infinity() } else { 0.0 }
}

#[tactic(auto, unfolding(crate::specs::Powers::pow_to_infinity))]
fn to_infinity(a: f64, y: f64) -> f64
    ensures { result ≡ pow_to_infinity a y }
{
    if a == ONE {
        ONE
    } else if y > 0.0 {
        end(a > ONE)
    } else {
        end(!(a > ONE))
    }
}

#[tactic(auto, unfolding(crate::specs::Powers::pow_of_size))]
fn of_size(a: f64, y: f64) -> f64
    ensures { result ≡ pow_of_size a y }
{
    if a == 0.0 {
        end(y < 0.0)
    } else if a.is_infinite() {
        end(!(y < 0.0))
    } else {
        of_positive(a, y)
    }
}

fn is_without_power(x: f64, y: f64) -> bool
    ensures { result ≡ has_no_power x y }
{
    x < 0.0 && !is_whole(y) && !x.is_infinite()
}

#[tactic(auto, unfolding(crate::specs::Powers::pow_of_number))]
fn of_number(x: f64, y: f64) -> f64
    ensures { result ≡ pow_of_number x y }
{
    if is_without_power(x, y) {
        not_a_number()
    } else {
        signed(is_negative(x) && is_odd(y), of_size(x.abs(), y))
    }
}

/// `pow x y`.
#[tactic(auto, unfolding(crate::specs::Powers::pow_of))]
pub(crate) fn pow(x: f64, y: f64) -> f64
    ensures { result ≡ pow_of x y }
{
    if y == 0.0 || x == ONE {
        ONE
    } else if x.is_nan() || y.is_nan() {
        not_a_number()
    } else if y.is_infinite() {
        to_infinity(x.abs(), y)
    } else {
        of_number(x, y)
    }
}
