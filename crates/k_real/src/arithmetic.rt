//! The operators on reals, by their codes.
ghost use Rattle.std.specs.Prelude.{◌≡◌};
ghost use Rattle.std.specs.Float.Ieee.{add as sum_of, sub as difference_of, mul as product_of, div as quotient_of};
ghost use Rattle.k_real.specs.Arithmetic.{made, number as number_of, binary, unary, truth as truth_of};

use crate::Precision;
use crate::codes::{code_of, code_of_single, real_of_code, single_of_code};
use k_num::{Bin, Un};

fn sum(p: Precision, a: u64, b: u64) -> u64
    ensures { result ≡ made sum_of p a b }
{
    match p {
        Precision::Single => code_of_single(single_of_code(a) + single_of_code(b)),
        Precision::Double => code_of(real_of_code(a) + real_of_code(b)),
    }
}

fn difference(p: Precision, a: u64, b: u64) -> u64
    ensures { result ≡ made difference_of p a b }
{
    match p {
        Precision::Single => code_of_single(single_of_code(a) - single_of_code(b)),
        Precision::Double => code_of(real_of_code(a) - real_of_code(b)),
    }
}

fn product(p: Precision, a: u64, b: u64) -> u64
    ensures { result ≡ made product_of p a b }
{
    match p {
        Precision::Single => code_of_single(single_of_code(a) * single_of_code(b)),
        Precision::Double => code_of(real_of_code(a) * real_of_code(b)),
    }
}

fn quotient(p: Precision, a: u64, b: u64) -> u64
    ensures { result ≡ made quotient_of p a b }
{
    match p {
        Precision::Single => code_of_single(single_of_code(a) / single_of_code(b)),
        Precision::Double => code_of(real_of_code(a) / real_of_code(b)),
    }
}

/// 1 where the test holds, and 0 where not.
fn number(test: bool) -> u64
    ensures { result ≡ number_of test }
{
    if test { 1 } else { 0 }
}

/// What `a op b` is of two reals in a precision: a code, or 0 or 1 of a comparison. An operator that reals don't have counts as `!=`.
pub fn real_binary(op: Bin, p: Precision, a: u64, b: u64) -> u64
    ensures { result ≡ binary op p a b }
{
    let (left, right) = (real_of_code(a), real_of_code(b));
    match op {
        Bin::Add => sum(p, a, b),
        Bin::Sub => difference(p, a, b),
        Bin::Mul => product(p, a, b),
        Bin::Div => quotient(p, a, b),
        Bin::Lt => number(left < right),
        Bin::Le => number(left <= right),
        Bin::Gt => number(left > right),
        Bin::Ge => number(left >= right),
        Bin::Eq => number(left == right),
        Bin::Rem => number(left != right),
        Bin::And => number(left != right),
        Bin::Or => number(left != right),
        Bin::Xor => number(left != right),
        Bin::Shl => number(left != right),
        Bin::Shr => number(left != right),
        Bin::Ne => number(left != right),
        Bin::LogAnd => number(left != right),
        Bin::LogOr => number(left != right),
    }
}

/// Whether a real is not a zero.
pub fn truth(a: u64) -> bool
    ensures { result ≡ truth_of a }
{
    real_of_code(a) != 0.0
}

/// What `op a` is of a real: a code, or 0 or 1 of `!`. An operator that reals don't have counts as `!`.
pub fn real_unary(op: Un, a: u64) -> u64
    ensures { result ≡ unary op a }
{
    match op {
        Un::Neg => code_of(-real_of_code(a)),
        Un::Not | Un::Complement => number(!truth(a)),
    }
}
