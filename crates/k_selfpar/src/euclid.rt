//! The greatest common divisor of two numbers.
ghost use Rattle.std.specs.Prelude.{◌<◌};
ghost use Rattle.std.specs.Int.{IsGcd};

/// Euclid's algorithm: the pair becomes smaller, and its common divisors stay the same.
pub fn gcd(a: u64, b: u64) -> u64
    ensures greatest { IsGcd a b result }
    ensures positive { 0 < b → 0 < result }
{
    let mut x = a;
    let mut y = b;
    while y != 0 {
        let rest = x % y;
        x = y;
        y = rest;
    }
    x
}
