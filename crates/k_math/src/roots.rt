//! `cbrt` and `hypot`.
ghost use Rattle.std.specs.Prelude.{◌≡◌};
ghost use Rattle.k_math.specs.Roots.{cbrt_of_size, cbrt_of, hypotenuse, hypot_by, hypot_ordered, hypot_of_sizes, hypot_of};

use crate::doubles::{infinity, not_a_number, signed};
use crate::exponential::exp_pair;
use crate::logarithm::log_pair;
use crate::pair::{Pair, exact_product, from_double, quotient, root, sum};
use crate::scaling::{normalized, rounded, scaled};

pub(crate) const THREE: f64 = 3.0;

#[tactic(auto, unfolding(crate::specs::Roots::cbrt_of_size))]
fn cbrt_size(a: f64) -> f64
    ensures { result ≡ cbrt_of_size a }
{
    exp_pair(quotient(log_pair(a), from_double(THREE)))
}

/// `cbrt x`.
#[tactic(auto, unfolding(crate::specs::Roots::cbrt_of))]
pub(crate) fn cbrt(x: f64) -> f64
    ensures { result ≡ cbrt_of x }
{
    if x.is_nan() || x == 0.0 || x.is_infinite() {
        x
    } else {
        signed(x < 0.0, cbrt_size(x.abs()))
    }
}

#[tactic(auto, unfolding(crate::specs::Roots::hypotenuse))]
fn length_of(a: f64, b: f64) -> Pair
    ensures { result ≡ hypotenuse a b }
{
    root(sum(exact_product(a, a), exact_product(b, b)))
}

#[tactic(auto, unfolding(crate::specs::Roots::hypot_by))]
fn by_exponent(e: i32, a: f64, b: f64) -> f64
    ensures { result ≡ hypot_by e a b }
{
    let k = -i64::from(e);
    rounded(length_of(scaled(a, k), scaled(b, k)), i64::from(e))
}

#[tactic(auto, unfolding(crate::specs::Roots::hypot_ordered))]
fn ordered(a: f64, b: f64) -> f64
    ensures { result ≡ hypot_ordered a b }
{
    if b == 0.0 {
        a
    } else {
        let p = normalized(a);
        by_exponent(p.exponent, a, b)
    }
}

#[tactic(auto, unfolding(crate::specs::Roots::hypot_of_sizes))]
fn of_sizes(a: f64, b: f64) -> f64
    ensures { result ≡ hypot_of_sizes a b }
{
    if a < b { ordered(b, a) } else { ordered(a, b) }
}

/// `hypot x y`.
#[tactic(auto, unfolding(crate::specs::Roots::hypot_of))]
pub(crate) fn hypot(x: f64, y: f64) -> f64
    ensures { result ≡ hypot_of x y }
{
    if x.is_infinite() || y.is_infinite() {
        infinity()
    } else if x.is_nan() || y.is_nan() {
        not_a_number()
    } else {
        of_sizes(x.abs(), y.abs())
    }
}
