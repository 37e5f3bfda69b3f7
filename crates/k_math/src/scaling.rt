//! Multiplication by powers of two, and the rounding of a pair to a double.
ghost use Rattle.std.specs.Prelude.{◌≡◌, ◌≤◌, ◌≤ℤ◌, pos, negsuc};
ghost use Rattle.k_math.specs.Pairs.{pair};
ghost use Rattle.k_math.specs.Scaling.{power_up, power_down, repeated, raised_of, lowered_of, scaled_of, pair_scaled_of, parts_by, parts_of, rounded_on, rounded_low, rounded_at, rounded_of};

use crate::pair::{ONE, Pair, exact_sum};
use k_real::{code_of, real_of_code};

/// The weight of the lowest bit of the exponent's field in a code.
pub(crate) const FIELD: u64 = 0x10_0000_0000_0000;

/// A positive number as `fraction * 2^exponent`, the fraction from 1/2 to below 1.
#[derive(Clone, Copy)]
pub(crate) struct Parts {
    pub(crate) fraction: f64,
    pub(crate) exponent: i32,
}

/// `2^k`.
#[inline]
#[tactic(auto, unfolding(crate::specs::Scaling::power_up))]
fn power(k: u64) -> f64
    requires { k ≤ 1000 }
    ensures { result ≡ power_up k }
{
    real_of_code((1023 + k) * FIELD)
}

/// `2^-k`.
#[inline]
#[tactic(auto, unfolding(crate::specs::Scaling::power_down))]
fn power_of_half(k: u64) -> f64
    requires { k ≤ 1000 }
    ensures { result ≡ power_down k }
{
    real_of_code((1023 - k) * FIELD)
}

#[tactic(auto, unfolding(crate::specs::Scaling::repeated))]
fn times(x: f64, by: f64, n: u64) -> f64
    ensures { result ≡ repeated n by x }
{
    let mut y = x;
    for _k in 0..n {
        y *= by;
    }
    y
}

#[inline]
#[tactic(auto, unfolding(crate::specs::Scaling::raised_of))]
fn raised(x: f64, k: u64) -> f64
    ensures { result ≡ raised_of x k }
{
    let n = k.saturating_sub(1) / 1000;
    times(x, power(1000), n) * power(k - 1000 * n)
}

#[inline]
#[tactic(auto, unfolding(crate::specs::Scaling::lowered_of))]
fn lowered(x: f64, k: u64) -> f64
    ensures { result ≡ lowered_of x k }
{
    let n = k.saturating_sub(1) / 1000;
    times(x, power_of_half(1000), n) * power_of_half(k - 1000 * n)
}

/// `x * 2^k`, with one rounding at most where the result is no subnormal number.
#[tactic(auto, unfolding(crate::specs::Scaling::scaled_of))]
pub(crate) fn scaled(x: f64, k: i64) -> f64
    ensures { result ≡ scaled_of x k }
{
    if k < 0 {
        lowered(x, k.unsigned_abs())
    } else {
        raised(x, k as u64)
    }
}

/// `x * 2^k`.
#[inline]
#[tactic(auto, unfolding(crate::specs::Scaling::pair_scaled_of))]
pub(crate) fn pair_scaled(x: Pair, k: i64) -> Pair
    ensures { result ≡ pair_scaled_of x k }
{
    Pair {
        high: scaled(x.high, k),
        low: scaled(x.low, k),
    }
}

#[inline]
#[tactic(auto, unfolding(crate::specs::Scaling::parts_by))]
fn split(a: u64, bias: i32) -> Parts
    requires low { pos 0 ≤ℤ bias }
    requires high { bias ≤ℤ pos 2000 }
    ensures { result ≡ parts_by bias a }
{
    let field = a % 0x8000_0000_0000_0000 / FIELD;
    Parts {
        fraction: real_of_code(1022 * FIELD + a % FIELD),
        exponent: field as i32 - bias,
    }
}

/// The fraction and the exponent of a positive number.
#[tactic(auto, unfolding(crate::specs::Scaling::parts_of))]
pub(crate) fn normalized(x: f64) -> Parts
    ensures { result ≡ parts_of x }
{
    let a = code_of(x);
    if a % 0x8000_0000_0000_0000 / FIELD == 0 {
        split(code_of(x * power(54)), 1076)
    } else {
        split(a, 1022)
    }
}

#[inline]
#[tactic(auto, unfolding(crate::specs::Scaling::rounded_on))]
fn on_grid(c: f64, x: Pair) -> f64
    ensures { result ≡ rounded_on c x }
{
    let t = exact_sum(c, x.high);
    (t.high + (t.low + x.low)) - c
}

#[tactic(auto, unfolding(crate::specs::Scaling::rounded_low))]
fn low_rounded(x: Pair, k: i64) -> f64
    requires low { negsuc 4294967295 ≤ℤ k }
    requires high { k ≤ℤ pos 4294967296 }
    ensures { result ≡ rounded_low x k }
{
    let c = scaled(ONE, -1022 - k);
    scaled(on_grid(c, x), k)
}

#[tactic(auto, unfolding(crate::specs::Scaling::rounded_at))]
fn rounded_with(n: i64, x: Pair, k: i64) -> f64
    requires low { negsuc 4294967295 ≤ℤ k }
    requires high { k ≤ℤ pos 4294967296 }
    ensures { result ≡ rounded_at n x k }
{
    if n > -1022 {
        scaled(x.high, k)
    } else if n < -1100 {
        0.0
    } else {
        low_rounded(x, k)
    }
}

/// `x * 2^k` rounded once, of an `x` that is not negative.
#[tactic(auto, unfolding(crate::specs::Scaling::rounded_of))]
pub(crate) fn rounded(x: Pair, k: i64) -> f64
    requires low { negsuc 4294967295 ≤ℤ k }
    requires high { k ≤ℤ pos 4294967296 }
    ensures { result ≡ rounded_of x k }
{
    if x.high == 0.0 {
        0.0
    } else {
        let n = i64::from(normalized(x.high).exponent) + k;
        rounded_with(n, x, k)
    }
}
