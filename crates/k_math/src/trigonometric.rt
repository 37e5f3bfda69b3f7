//! `sin`, `cos` and `tan`.
ghost use Rattle.std.specs.Prelude.{◌≡◌};
ghost use Rattle.k_math.specs.Trigonometric.{along, across, sin_by, cos_by, tan_by, sin_of, cos_of, tan_of};

use crate::circle::{cosine, sine};
use crate::doubles::{is_tame, not_a_number, signed};
use crate::pair::{ONE, Pair, quotient};
use crate::reduction::{Turn, reduced};

#[tactic(auto, unfolding(crate::specs::Trigonometric::along))]
fn upright(t: Turn) -> Pair
    ensures { result ≡ along t }
{
    if t.quarter % 2 == 1 {
        cosine(t.rest)
    } else {
        sine(t.rest)
    }
}

#[tactic(auto, unfolding(crate::specs::Trigonometric::across))]
fn level(t: Turn) -> Pair
    ensures { result ≡ across t }
{
    if t.quarter % 2 == 1 {
        sine(t.rest)
    } else {
        cosine(t.rest)
    }
}

#[tactic(auto, unfolding(crate::specs::Trigonometric::sin_by))]
fn sin_of_turn(t: Turn) -> f64
    ensures { result ≡ sin_by t }
{
    let s = upright(t);
    signed(t.quarter / 2 % 2 == 1, s.high)
}

#[tactic(auto, unfolding(crate::specs::Trigonometric::cos_by))]
fn cos_of_turn(t: Turn) -> f64
    ensures { result ≡ cos_by t }
{
    let c = level(t);
    signed(t.quarter == 1 || t.quarter == 2, c.high)
}

#[tactic(auto, unfolding(crate::specs::Trigonometric::tan_by))]
fn tan_of_turn(t: Turn) -> f64
    ensures { result ≡ tan_by t }
{
    let (s, c) = (sine(t.rest), cosine(t.rest));
    if t.quarter % 2 == 1 {
        let q = quotient(c, s);
        -q.high
    } else {
        let q = quotient(s, c);
        q.high
    }
}

/// `sin x`.
#[tactic(auto, unfolding(crate::specs::Trigonometric::sin_of))]
pub(crate) fn sin(x: f64) -> f64
    ensures { result ≡ sin_of x }
{
    if x.is_finite() {
        if is_tame(x) {
            x
        } else {
            sin_of_turn(reduced(x))
        }
    } else {
        not_a_number()
    }
}

/// `cos x`.
#[tactic(auto, unfolding(crate::specs::Trigonometric::cos_of))]
pub(crate) fn cos(x: f64) -> f64
    ensures { result ≡ cos_of x }
{
    if x.is_finite() {
        if is_tame(x) {
            ONE
        } else {
            cos_of_turn(reduced(x))
        }
    } else {
        not_a_number()
    }
}

/// `tan x`.
#[tactic(auto, unfolding(crate::specs::Trigonometric::tan_of))]
pub(crate) fn tan(x: f64) -> f64
    ensures { result ≡ tan_of x }
{
    if x.is_finite() {
        if is_tame(x) {
            x
        } else {
            tan_of_turn(reduced(x))
        }
    } else {
        not_a_number()
    }
}
