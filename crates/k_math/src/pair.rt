//! Numbers of 106 bits as pairs of doubles, and their arithmetic.
ghost use Rattle.std.specs.Prelude.{◌≡◌};
ghost use Rattle.k_math.specs.Pairs.{single, ordered_sum_of, exact_sum_of, halves_of, lost_by, exact_product_of, joined_sums, sum_of, negated_of, product_of, less_times, quotient_of, root_from, root_of};

/// 2^27 + 1: times this, a double is cut into halves of 26 bits.
pub(crate) const SPLITTER: f64 = 134217729.0;

pub(crate) const ONE: f64 = 1.0;

pub(crate) const TWO: f64 = 2.0;

/// The number `high + low`, where `low` is below half a unit of `high`'s last place.
#[derive(Clone, Copy)]
pub(crate) struct Pair {
    pub(crate) high: f64,
    pub(crate) low: f64,
}

/// A double.
#[inline]
pub(crate) fn from_double(x: f64) -> Pair
    ensures { result ≡ single x }
{
    Pair { high: x, low: 0.0 }
}

/// A sum and what its rounding left out, of a number and one that is not greater in size.
#[inline]
#[tactic(auto, unfolding(crate::specs::Pairs::ordered_sum_of))]
pub(crate) fn ordered_sum(a: f64, b: f64) -> Pair
    ensures { result ≡ ordered_sum_of a b }
{
    let s = a + b;
    Pair {
        high: s,
        low: b - (s - a),
    }
}

/// A sum and what its rounding left out.
#[inline]
#[tactic(auto, unfolding(crate::specs::Pairs::exact_sum_of))]
pub(crate) fn exact_sum(a: f64, b: f64) -> Pair
    ensures { result ≡ exact_sum_of a b }
{
    let s = a + b;
    let t = s - a;
    Pair {
        high: s,
        low: (a - (s - t)) + (b - t),
    }
}

#[inline]
#[tactic(auto, unfolding(crate::specs::Pairs::halves_of))]
fn halves(a: f64) -> Pair
    ensures { result ≡ halves_of a }
{
    let t = SPLITTER * a;
    let high = t - (t - a);
    Pair {
        high,
        low: a - high,
    }
}

#[inline]
#[tactic(auto, unfolding(crate::specs::Pairs::lost_by))]
fn lost(p: f64, a: Pair, b: Pair) -> f64
    ensures { result ≡ lost_by p a b }
{
    ((a.high * b.high - p) + a.high * b.low + a.low * b.high) + a.low * b.low
}

/// A product and what its rounding left out.
#[inline]
#[tactic(auto, unfolding(crate::specs::Pairs::exact_product_of))]
pub(crate) fn exact_product(a: f64, b: f64) -> Pair
    ensures { result ≡ exact_product_of a b }
{
    let p = a * b;
    Pair {
        high: p,
        low: lost(p, halves(a), halves(b)),
    }
}

#[inline]
#[tactic(auto, unfolding(crate::specs::Pairs::joined_sums))]
fn joined(s: Pair, t: Pair) -> Pair
    ensures { result ≡ joined_sums s t }
{
    let v = ordered_sum(s.high, s.low + t.high);
    ordered_sum(v.high, t.low + v.low)
}

/// `x + y`.
#[inline]
#[tactic(auto, unfolding(crate::specs::Pairs::sum_of))]
pub(crate) fn sum(x: Pair, y: Pair) -> Pair
    ensures { result ≡ sum_of x y }
{
    joined(exact_sum(x.high, y.high), exact_sum(x.low, y.low))
}

/// `-x`.
#[inline]
#[tactic(auto, unfolding(crate::specs::Pairs::negated_of))]
pub(crate) fn negated(x: Pair) -> Pair
    ensures { result ≡ negated_of x }
{
    Pair {
        high: -x.high,
        low: -x.low,
    }
}

/// `x * y`.
#[inline]
#[tactic(auto, unfolding(crate::specs::Pairs::product_of))]
pub(crate) fn product(x: Pair, y: Pair) -> Pair
    ensures { result ≡ product_of x y }
{
    let p = exact_product(x.high, y.high);
    ordered_sum(p.high, p.low + (x.high * y.low + x.low * y.high))
}

#[inline]
#[tactic(auto, unfolding(crate::specs::Pairs::less_times))]
fn less(x: Pair, y: Pair, a: f64) -> Pair
    ensures { result ≡ less_times x y a }
{
    sum(x, negated(product(y, from_double(a))))
}

/// `x / y`.
#[tactic(auto, unfolding(crate::specs::Pairs::quotient_of))]
pub(crate) fn quotient(x: Pair, y: Pair) -> Pair
    ensures { result ≡ quotient_of x y }
{
    let a = x.high / y.high;
    let r = less(x, y, a);
    let b = r.high / y.high;
    let rest = less(r, y, b);
    let c = rest.high / y.high;
    sum(ordered_sum(a, b), from_double(c))
}

#[inline]
#[tactic(auto, unfolding(crate::specs::Pairs::root_from))]
fn stepped(x: Pair, s: f64) -> Pair
    ensures { result ≡ root_from x s }
{
    let r = sum(x, negated(exact_product(s, s)));
    ordered_sum(s, r.high / (TWO * s))
}

/// The square root, of a number that is not negative.
#[tactic(auto, unfolding(crate::specs::Pairs::root_of))]
pub(crate) fn root(x: Pair) -> Pair
    ensures { result ≡ root_of x }
{
    if x.high == 0.0 {
        from_double(0.0)
    } else {
        stepped(x, x.high.sqrt())
    }
}
