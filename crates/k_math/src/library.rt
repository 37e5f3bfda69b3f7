//! The functions of `math.h` on codes of reals.
ghost use Rattle.std.specs.Prelude.{◌≡◌};
ghost use Rattle.std.specs.Float.{float_with_sign};
ghost use Rattle.k_real.specs.Codes.{rounded, format};
ghost use Rattle.std.specs.Float.Ieee.{sqrt, sub};
ghost use Rattle.k_math.specs.Library.{argument, of_double, elementary_of, of_doubles, elementary_pair_of, root_value, size_value, excess, excess_value, whole_near, whole_value, long_value, lesser, greater, chosen, exact_pair_value, is_of, test_value};

use crate::arcs::{acos, asin, atan, atan2};
use crate::doubles::{is_negative, not_a_number};
use crate::exponential::{exp, exp2};
use crate::hyperbolic::{cosh, sinh, tanh};
use crate::logarithm::{log, log2, log10};
use crate::powers::pow;
use crate::remainder::remainder;
use crate::roots::{cbrt, hypot};
use crate::trigonometric::{cos, sin, tan};
use k_num::Kind;
use k_real::{Precision, code_of, real_of_code, to_whole};
use std::num::{f32_to_f64_with_nan, nearest_f64_to_f32_with_nan};

/// Elementary functions of one argument.
#[derive(Clone, Copy, Debug, PartialEq, Eq, Hash)]
pub enum ElementaryOne {
    Exp,
    Exp2,
    Log,
    Log2,
    Log10,
    Cbrt,
    Sin,
    Cos,
    Tan,
    Asin,
    Acos,
    Atan,
    Sinh,
    Cosh,
    Tanh,
}

/// Elementary functions of two arguments; `atan2` takes y first.
#[derive(Clone, Copy, Debug, PartialEq, Eq, Hash)]
pub enum ElementaryPair {
    Pow,
    Atan2,
    Hypot,
}

/// Which whole number: `floor`, `ceil`, `trunc`, `round`, and `rint` or `nearbyint`.
#[derive(Clone, Copy, Debug, PartialEq, Eq, Hash)]
pub enum WholeBy {
    Floor,
    Ceil,
    Trunc,
    Round,
    Rint,
}

/// `fmin`, `fmax`, `copysign` and `fmod`.
#[derive(Clone, Copy, Debug, PartialEq, Eq, Hash)]
pub enum ExactPair {
    Least,
    Greatest,
    WithSign,
    Remainder,
}

/// `isnan`, `isinf`, `isfinite` and `signbit`.
#[derive(Clone, Copy, Debug, PartialEq, Eq, Hash)]
pub enum RealTest {
    IsNan,
    IsInf,
    IsFinite,
    SignBit,
}

/// A real rounded once to a precision.
#[inline]
fn in_precision(p: Precision, x: f64) -> f64
    ensures { result ≡ rounded p x }
{
    match p {
        Precision::Single => f32_to_f64_with_nan(nearest_f64_to_f32_with_nan(x)),
        Precision::Double => x,
    }
}

#[inline]
fn argument_of(p: Precision, a: u64) -> f64
    ensures { result ≡ argument p a }
{
    in_precision(p, real_of_code(a))
}

#[tactic(auto, unfolding(crate::specs::Library::of_double))]
fn on_double(what: ElementaryOne, x: f64) -> f64
    ensures { result ≡ of_double what x }
{
    match what {
        ElementaryOne::Exp => exp(x),
        ElementaryOne::Exp2 => exp2(x),
        ElementaryOne::Log => log(x),
        ElementaryOne::Log2 => log2(x),
        ElementaryOne::Log10 => log10(x),
        ElementaryOne::Cbrt => cbrt(x),
        ElementaryOne::Sin => sin(x),
        ElementaryOne::Cos => cos(x),
        ElementaryOne::Tan => tan(x),
        ElementaryOne::Asin => asin(x),
        ElementaryOne::Acos => acos(x),
        ElementaryOne::Atan => atan(x),
        ElementaryOne::Sinh => sinh(x),
        ElementaryOne::Cosh => cosh(x),
        ElementaryOne::Tanh => tanh(x),
    }
}

/// An elementary function of one argument, in a precision: the value in Double, rounded.
pub fn elementary(what: ElementaryOne, p: Precision, a: u64) -> u64
    ensures { result ≡ elementary_of what p a }
{
    code_of(in_precision(p, on_double(what, argument_of(p, a))))
}

#[tactic(auto, unfolding(crate::specs::Library::of_doubles))]
fn on_doubles(what: ElementaryPair, x: f64, y: f64) -> f64
    ensures { result ≡ of_doubles what x y }
{
    match what {
        ElementaryPair::Pow => pow(x, y),
        ElementaryPair::Atan2 => atan2(x, y),
        ElementaryPair::Hypot => hypot(x, y),
    }
}

/// An elementary function of two arguments.
pub fn elementary_pair(what: ElementaryPair, p: Precision, a: u64, b: u64) -> u64
    ensures { result ≡ elementary_pair_of what p a b }
{
    let value = on_doubles(what, argument_of(p, a), argument_of(p, b));
    code_of(in_precision(p, value))
}

fn root_in(p: Precision, x: f64) -> f64
    ensures { result ≡ sqrt (format p) (rounded p x) }
{
    match p {
        Precision::Single => f32_to_f64_with_nan(nearest_f64_to_f32_with_nan(x).sqrt()),
        Precision::Double => x.sqrt(),
    }
}

/// `sqrt`, rounded once in the precision.
pub fn square_root(p: Precision, a: u64) -> u64
    ensures { result ≡ root_value p a }
{
    code_of(root_in(p, real_of_code(a)))
}

/// `fabs`.
pub fn absolute(p: Precision, a: u64) -> u64
    ensures { result ≡ size_value p a }
{
    code_of(argument_of(p, a).abs())
}

fn difference_in(p: Precision, x: f64, y: f64) -> f64
    ensures { result ≡ sub (format p) (rounded p x) (rounded p y) }
{
    match p {
        Precision::Single => f32_to_f64_with_nan(
            nearest_f64_to_f32_with_nan(x) - nearest_f64_to_f32_with_nan(y),
        ),
        Precision::Double => x - y,
    }
}

/// `fdim`.
pub fn positive_difference(p: Precision, a: u64, b: u64) -> u64
    ensures { result ≡ excess_value p a b }
{
    let (x, y) = (argument_of(p, a), argument_of(p, b));
    if x.is_nan() || y.is_nan() {
        code_of(not_a_number())
    } else if x > y {
        code_of(difference_in(p, real_of_code(a), real_of_code(b)))
    } else {
        code_of(0.0)
    }
}

#[tactic(auto, unfolding(crate::specs::Library::whole_near))]
fn whole_of_double(what: WholeBy, x: f64) -> f64
    ensures { result ≡ whole_near what x }
{
    match what {
        WholeBy::Floor => x.floor(),
        WholeBy::Ceil => x.ceil(),
        WholeBy::Trunc => x.trunc(),
        WholeBy::Round => x.round(),
        WholeBy::Rint => x.round_ties_even(),
    }
}

/// The whole number by a real, as a real. The sign is kept at zero.
pub fn whole(what: WholeBy, p: Precision, a: u64) -> u64
    ensures { result ≡ whole_value what p a }
{
    code_of(whole_of_double(what, argument_of(p, a)))
}

/// The same as a `long`: `lround` and `llround` by Round, `lrint` and `llrint` by Rint; none where it is no `long`.
pub fn long(what: WholeBy, p: Precision, a: u64) -> Option<i128>
    ensures { result ≡ long_value what p a }
{
    to_whole(Kind::I64, whole(what, p, a))
}

#[tactic(auto, unfolding(crate::specs::Library::lesser))]
fn least(x: f64, y: f64) -> f64
    ensures { result ≡ lesser x y }
{
    if x.is_nan() {
        y
    } else if y.is_nan() {
        x
    } else if x < y || (x == y && is_negative(x)) {
        x
    } else {
        y
    }
}

#[tactic(auto, unfolding(crate::specs::Library::greater))]
fn greatest(x: f64, y: f64) -> f64
    ensures { result ≡ greater x y }
{
    if x.is_nan() {
        y
    } else if y.is_nan() {
        x
    } else if x > y || (x == y && is_negative(y)) {
        x
    } else {
        y
    }
}

fn with_sign(negative: bool, x: f64) -> f64
    ensures { result ≡ float_with_sign negative x }
{
    if negative { -x.abs() } else { x.abs() }
}

#[tactic(auto, unfolding(crate::specs::Library::chosen))]
fn choose(what: ExactPair, x: f64, y: f64) -> f64
    ensures { result ≡ chosen what x y }
{
    match what {
        ExactPair::Least => least(x, y),
        ExactPair::Greatest => greatest(x, y),
        ExactPair::WithSign => with_sign(is_negative(y), x),
        ExactPair::Remainder => remainder(x, y),
    }
}

/// `fmin`, `fmax`, `copysign` and `fmod`: exact in every precision.
pub fn exact_pair(what: ExactPair, p: Precision, a: u64, b: u64) -> u64
    ensures { result ≡ exact_pair_value what p a b }
{
    code_of(choose(what, argument_of(p, a), argument_of(p, b)))
}

#[tactic(auto, unfolding(crate::specs::Library::is_of))]
fn is_one(what: RealTest, x: f64) -> bool
    ensures { result ≡ is_of what x }
{
    match what {
        RealTest::IsNan => x.is_nan(),
        RealTest::IsInf => x.is_infinite(),
        RealTest::IsFinite => x.is_finite(),
        RealTest::SignBit => is_negative(x),
    }
}

/// 1 where a real is so, and 0 where not. The NaN has no sign.
pub fn real_test(what: RealTest, a: u64) -> u64
    ensures { result ≡ test_value what a }
{
    if is_one(what, real_of_code(a)) { 1 } else { 0 }
}
