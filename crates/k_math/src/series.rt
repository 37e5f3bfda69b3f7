//! Sums of powers by Horner's rule.
ghost use Rattle.std.specs.Prelude.{◌≡◌, ◌≤◌, length, drop};
ghost use Rattle.k_math.specs.Series.{with_next, series_from, second_from, series_of, alternate_of};

use crate::pair::{Pair, from_double, product, sum};

#[inline]
#[tactic(auto, unfolding(crate::specs::Series::with_next))]
fn next(z: Pair, p: Pair, c: Pair) -> Pair
    ensures { result ≡ with_next z p c }
{
    sum(product(p, z), c)
}

#[tactic(auto, unfolding(crate::specs::Series::series_from))]
fn onward(z: Pair, first: Pair, coefficients: &[Pair]) -> Pair
    ensures { result ≡ series_from z first coefficients.now }
{
    let mut p = first;
    let mut rest = coefficients;
    while let Some((c, later)) = rest.split_first() {
        p = next(z, p, *c);
        rest = later;
    }
    p
}

#[tactic(auto, unfolding(crate::specs::Series::second_from))]
fn by_twos(z: Pair, first: Pair, coefficients: &[Pair]) -> Pair
    ensures { result ≡ second_from z first coefficients.now }
{
    let mut p = first;
    let mut rest = coefficients;
    while let Some((_skipped, behind)) = rest.split_first() {
        match behind.split_first() {
            None => return p,
            Some((c, later)) => {
                p = next(z, p, *c);
                rest = later;
            }
        }
    }
    p
}

/// The sum of `c z^n` over these coefficients, the highest first.
#[tactic(auto, unfolding(crate::specs::Series::series_of))]
pub(crate) fn series(z: Pair, coefficients: &[Pair]) -> Pair
    ensures { result ≡ series_of z coefficients.now }
{
    match coefficients.split_first() {
        None => from_double(0.0),
        Some((c, later)) => onward(z, *c, later),
    }
}

/// The same over the coefficients behind the first so many.
pub(crate) fn series_behind(z: Pair, skipped: usize, coefficients: &[Pair]) -> Pair
    requires { skipped ≤ length coefficients.now }
    ensures { result ≡ series_of z (drop skipped coefficients.now) }
{
    series(z, &coefficients[skipped..])
}

/// The sum over the first coefficient, the third and so on.
#[tactic(auto, unfolding(crate::specs::Series::alternate_of))]
pub(crate) fn alternate(z: Pair, coefficients: &[Pair]) -> Pair
    ensures { result ≡ alternate_of z coefficients.now }
{
    match coefficients.split_first() {
        None => from_double(0.0),
        Some((c, later)) => by_twos(z, *c, later),
    }
}

/// The same over the second coefficient, the fourth and so on.
pub(crate) fn alternate_behind(z: Pair, coefficients: &[Pair]) -> Pair
    requires { 1 ≤ length coefficients.now }
    ensures { result ≡ alternate_of z (drop 1 coefficients.now) }
{
    alternate(z, &coefficients[1..])
}
