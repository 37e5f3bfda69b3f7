//! Sizes and signs of doubles, and which are whole numbers.
ghost use Rattle.std.specs.Prelude.{◌≡◌, if◌then◌else◌, false};
ghost use Rattle.std.specs.Float.{nan, inf, is_sign_negative};
ghost use Rattle.std.specs.Float.Ieee.{neg};
ghost use Rattle.k_math.specs.Tests.{near, is_whole_number, is_odd_number, is_tame_number};

pub(crate) const HALF: f64 = 0.5;

/// 1.5 * 2^52.
pub(crate) const NEAREST: f64 = 6755399441055744.0;

/// 2^52.
pub(crate) const UNITS_FROM: f64 = 4503599627370496.0;

/// 2^53.
pub(crate) const TWOS_FROM: f64 = 9007199254740992.0;

/// 2^-27.
pub(crate) const TAME: f64 = 7.450580596923828125e-09;

#[inline]
pub(crate) fn not_a_number() -> f64
    ensures { result ≡ nan }
{
    0.0 / 0.0
}

#[inline]
pub(crate) fn infinity() -> f64
    ensures { result ≡ inf false }
{
    1.0 / 0.0
}

/// Whether the sign is a minus; the NaN has none.
#[inline]
pub(crate) fn is_negative(x: f64) -> bool
    ensures { result ≡ is_sign_negative x }
{
    if x.is_nan() {
        false
    } else {
        x.is_sign_negative()
    }
}

/// `-x` where the sign is to be a minus.
#[inline]
pub(crate) fn signed(negative: bool, x: f64) -> f64
    ensures { result ≡ (if negative then neg x else x) }
{
    if negative { -x } else { x }
}

#[inline]
pub(crate) fn nearest(x: f64) -> f64
    ensures { result ≡ near x }
{
    (x + NEAREST) - NEAREST
}

#[tactic(auto, unfolding(crate::specs::Tests::is_whole_number))]
pub(crate) fn is_whole(x: f64) -> bool
    ensures { result ≡ is_whole_number x }
{
    x.abs() >= UNITS_FROM || nearest(x) == x
}

#[tactic(auto, unfolding(crate::specs::Tests::is_odd_number))]
pub(crate) fn is_odd(x: f64) -> bool
    ensures { result ≡ is_odd_number x }
{
    is_whole(x) && x.abs() < TWOS_FROM && !is_whole(x * HALF)
}

#[inline]
pub(crate) fn is_tame(x: f64) -> bool
    ensures { result ≡ is_tame_number x }
{
    x.abs() < TAME
}
