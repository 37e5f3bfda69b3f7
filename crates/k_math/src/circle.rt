//! Sine and cosine of a small angle.
ghost use Rattle.std.specs.Prelude.{◌≡◌};
ghost use Rattle.k_math.specs.Circle.{sine_of, cosine_of};

use crate::pair::{Pair, negated, product};
use crate::series::{alternate, alternate_behind};
use crate::tables::FACTORIALS;

/// The sine of a small angle.
#[tactic(auto, unfolding(crate::specs::Circle::sine_of))]
pub(crate) fn sine(a: Pair) -> Pair
    ensures { result ≡ sine_of a }
{
    product(alternate_behind(negated(product(a, a)), &FACTORIALS), a)
}

/// The cosine of a small angle.
#[tactic(auto, unfolding(crate::specs::Circle::cosine_of))]
pub(crate) fn cosine(a: Pair) -> Pair
    ensures { result ≡ cosine_of a }
{
    alternate(negated(product(a, a)), &FACTORIALS)
}
