//! `atan`, `asin`, `acos` and `atan2`.
ghost use Rattle.std.specs.Prelude.{◌≡◌};
ghost use Rattle.k_math.specs.Arcs.{half_angle, atan_series, atan_of_small, atan_pair_of, atan_of_size, atan_of, asin_pair, asin_of_size, asin_of, acos_pair, acos_of, turned, atan2_near, atan2_by, atan2_far, atan2_of_sizes, atan2_upper, atan2_of};

use crate::doubles::{is_negative, is_tame, not_a_number, signed};
use crate::pair::{ONE, Pair, exact_sum, from_double, negated, product, quotient, root, sum};
use crate::scaling::{Parts, normalized, pair_scaled};
use crate::series::series;
use crate::tables::{HALF_PI, ODD_NUMBERS, PI};

pub(crate) const ATAN_UP_TO: f64 = 1e30;

pub(crate) const QUARTER_PI: f64 = 0.78539816339744828;

pub(crate) const THREE_QUARTERS_PI: f64 = 2.356194490192345;

pub(crate) const MINUS_ONE: f64 = -1.0;

#[tactic(auto, unfolding(crate::specs::Arcs::half_angle))]
fn half(t: Pair) -> Pair
    ensures { result ≡ half_angle t }
{
    let hypotenuse = root(sum(from_double(ONE), product(t, t)));
    quotient(t, sum(from_double(ONE), hypotenuse))
}

#[tactic(auto, unfolding(crate::specs::Arcs::atan_series))]
fn by_series(t: Pair) -> Pair
    ensures { result ≡ atan_series t }
{
    product(series(negated(product(t, t)), &ODD_NUMBERS), t)
}

#[tactic(auto, unfolding(crate::specs::Arcs::atan_of_small))]
fn of_small(t: Pair) -> Pair
    ensures { result ≡ atan_of_small t }
{
    pair_scaled(by_series(half(half(t))), 2)
}

#[tactic(auto, unfolding(crate::specs::Arcs::atan_pair_of))]
fn atan_pair(t: Pair) -> Pair
    ensures { result ≡ atan_pair_of t }
{
    if t.high > ONE {
        let rest = of_small(quotient(from_double(ONE), t));
        sum(HALF_PI, negated(rest))
    } else {
        of_small(t)
    }
}

#[tactic(auto, unfolding(crate::specs::Arcs::atan_of_size))]
fn of_size(a: f64) -> f64
    ensures { result ≡ atan_of_size a }
{
    if a > ATAN_UP_TO {
        HALF_PI.high
    } else {
        let angle = atan_pair(from_double(a));
        angle.high
    }
}

/// `atan x`.
#[tactic(auto, unfolding(crate::specs::Arcs::atan_of))]
pub(crate) fn atan(x: f64) -> f64
    ensures { result ≡ atan_of x }
{
    if x.is_nan() || is_tame(x) {
        x
    } else {
        signed(x < 0.0, of_size(x.abs()))
    }
}

#[tactic(auto, unfolding(crate::specs::Arcs::asin_pair))]
fn of_sine(a: f64) -> Pair
    ensures { result ≡ asin_pair a }
{
    let cosine = root(product(exact_sum(ONE, -a), exact_sum(ONE, a)));
    atan_pair(quotient(from_double(a), cosine))
}

#[tactic(auto, unfolding(crate::specs::Arcs::asin_of_size))]
fn of_sine_size(a: f64) -> f64
    ensures { result ≡ asin_of_size a }
{
    if a == ONE {
        HALF_PI.high
    } else {
        let angle = of_sine(a);
        angle.high
    }
}

/// `asin x`.
#[tactic(auto, unfolding(crate::specs::Arcs::asin_of))]
pub(crate) fn asin(x: f64) -> f64
    ensures { result ≡ asin_of x }
{
    if x.is_nan() || x.abs() > ONE {
        not_a_number()
    } else if is_tame(x) {
        x
    } else {
        signed(x < 0.0, of_sine_size(x.abs()))
    }
}

#[tactic(auto, unfolding(crate::specs::Arcs::acos_pair))]
fn of_cosine(x: f64) -> Pair
    ensures { result ≡ acos_pair x }
{
    let q = quotient(exact_sum(ONE, -x), exact_sum(ONE, x));
    pair_scaled(atan_pair(root(q)), 1)
}

/// `acos x`.
#[tactic(auto, unfolding(crate::specs::Arcs::acos_of))]
pub(crate) fn acos(x: f64) -> f64
    ensures { result ≡ acos_of x }
{
    if x.is_nan() || x.abs() > ONE {
        not_a_number()
    } else if x == ONE {
        0.0
    } else if x == MINUS_ONE {
        PI.high
    } else {
        let angle = of_cosine(x);
        angle.high
    }
}

#[tactic(auto, unfolding(crate::specs::Arcs::turned))]
fn turn(left: bool, t: Pair) -> Pair
    ensures { result ≡ turned left t }
{
    if left { sum(PI, negated(t)) } else { t }
}

#[tactic(auto, unfolding(crate::specs::Arcs::atan2_near))]
fn of_near(left: bool, y: Parts, x: Parts) -> f64
    ensures { result ≡ atan2_near left y x }
{
    let q = quotient(from_double(y.fraction), from_double(x.fraction));
    let e = i64::from(y.exponent) - i64::from(x.exponent);
    let angle = turn(left, atan_pair(pair_scaled(q, e)));
    angle.high
}

#[tactic(auto, unfolding(crate::specs::Arcs::atan2_by))]
fn of_parts(left: bool, y: Parts, x: Parts, q: f64) -> f64
    ensures { result ≡ atan2_by left y x q }
{
    let e = i64::from(y.exponent) - i64::from(x.exponent);
    if e > 100 {
        HALF_PI.high
    } else if e < -100 {
        if left { PI.high } else { q }
    } else {
        of_near(left, y, x)
    }
}

fn of_far(left: bool, a: f64) -> f64
    ensures { result ≡ atan2_far left a }
{
    if a.is_infinite() {
        if left { THREE_QUARTERS_PI } else { QUARTER_PI }
    } else if left {
        PI.high
    } else {
        0.0
    }
}

#[tactic(auto, unfolding(crate::specs::Arcs::atan2_of_sizes))]
fn of_sizes(left: bool, a: f64, b: f64) -> f64
    ensures { result ≡ atan2_of_sizes left a b }
{
    if b.is_infinite() {
        of_far(left, a)
    } else if a.is_infinite() {
        HALF_PI.high
    } else {
        of_parts(left, normalized(a), normalized(b), a / b)
    }
}

#[tactic(auto, unfolding(crate::specs::Arcs::atan2_upper))]
fn of_upper(left: bool, a: f64, b: f64) -> f64
    ensures { result ≡ atan2_upper left a b }
{
    if a == 0.0 {
        if left { PI.high } else { 0.0 }
    } else if b == 0.0 {
        HALF_PI.high
    } else {
        of_sizes(left, a, b)
    }
}

/// `atan2 y x`.
#[tactic(auto, unfolding(crate::specs::Arcs::atan2_of))]
pub(crate) fn atan2(y: f64, x: f64) -> f64
    ensures { result ≡ atan2_of y x }
{
    if x.is_nan() || y.is_nan() {
        not_a_number()
    } else {
        let angle = of_upper(is_negative(x), y.abs(), x.abs());
        signed(is_negative(y), angle)
    }
}
