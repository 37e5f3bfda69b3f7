//! Fractions in lowest terms, and their order.
ghost use Rattle.std.specs.Prelude.{◌≡◌, ℕ, ◌*◌, ◌^◌, ◌<◌, ◌≤◌, ◌↔◌, IsTrue};
ghost use Rattle.k_selfpar.specs.Ratio.{IsRatio, IsFraction, compared};

use crate::euclid::gcd;
use std::cmp::Ordering;
use std::marker::Model;

/// A fraction that is not negative, in lowest terms. Contracts see it as the pair of its numerator and its denominator.
#[derive(Clone, Copy, Debug, PartialEq, Eq)]
pub struct Frac {
    num: u64,
    den: u64,
}

impl Model for Frac {
    ghost Value = { ℕ × ℕ };

    ghost view = { λ f. (f.num, f.den) };

    ghost inverse = { λ v. record { num = v.0; den = v.1 } };

    ghost invariant = { λ f. IsFraction (f.num, f.den) };
}

impl Frac {
    /// `num / den`, reduced.
    pub fn new(num: u64, den: u64) -> Frac
        requires divisible { 0 < den }
        requires num_fits { num < 2 ^ 62 }
        requires den_fits { den < 2 ^ 62 }
        ensures { IsRatio num den result.0 result.1 }
    {
        let divisor = gcd(num, den);
        Frac {
            num: num / divisor,
            den: den / divisor,
        }
    }

    /// `num / den`, reduced, and 1/1 where `den` is 0.
    pub fn ratio(num: u64, den: u64) -> Frac
        requires num_fits { num < 2 ^ 62 }
        requires den_fits { den < 2 ^ 62 }
        ensures { IsRatio num den result.0 result.1 }
    {
        if den == 0 {
            Frac::new(1, 1)
        } else {
            Frac::new(num, den)
        }
    }

    /// The numerator.
    pub fn num(&self) -> u64
        ensures value { result ≡ self.now.0 }
        ensures reduced { IsFraction self.now }
    {
        self.num
    }

    /// The denominator.
    pub fn den(&self) -> u64
        ensures value { result ≡ self.now.1 }
        ensures reduced { IsFraction self.now }
    {
        self.den
    }

    /// The order of the values.
    pub fn cmp(&self, other: &Frac) -> Ordering
        ensures { result ≡ compared self.now other.now }
    {
        product(self.num, other.den).cmp(&product(other.num, self.den))
    }

    /// Whether the value is `n` or more.
    pub fn at_least(&self, n: u64) -> bool
        requires { n < 2 ^ 62 }
        ensures { IsTrue result ↔ (n * self.now.1 ≤ self.now.0) }
    {
        product(n, self.den) <= u128::from(self.num)
    }
}

/// A product that needs more than 64 bits.
fn product(a: u64, b: u64) -> u128
    requires a_fits { a < 2 ^ 62 }
    requires b_fits { b < 2 ^ 62 }
    ensures { result ≡ a * b }
{
    u128::from(a) * u128::from(b)
}
