//! Numbers that a table tells of loops, exact for all that is counted.
ghost use Rattle.std.specs.Prelude.{◌≡◌, ◌<◌, ◌^◌};
ghost use Rattle.k_advise_verdicts.specs.Figures.{is_uneven, nearest, share, tenths};

use crate::facts::Turns;

/// `a / b` as the nearest whole number, halves up; 0 where `b` is 0.
fn nearest(a: u128, b: u64) -> u128
    requires { a < 2 ^ 80 }
    ensures { result ≡ nearest a b }
{
    if b == 0 {
        return 0;
    }
    (2 * a + u128::from(b)) / (2 * u128::from(b))
}

/// A share in thousandths, which is a percentage with one decimal.
pub fn share(part: u64, whole: u64) -> u128
    ensures { result ≡ share part whole }
{
    nearest(1000 * u128::from(part), whole)
}

/// `a / b` as a decimal of one digit, in tenths.
pub fn tenths(a: u64, b: u64) -> u128
    ensures { result ≡ tenths a b }
{
    nearest(10 * u128::from(a), b)
}

/// Whether the greatest work of a turn is above twice the mean.
pub fn is_uneven(turns: &Turns) -> bool
    ensures { result ≡ is_uneven turns.now.count turns.now.work turns.now.greatest }
{
    2 * u128::from(turns.work) < u128::from(turns.greatest) * u128::from(turns.count)
}
