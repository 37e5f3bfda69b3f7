//! The unary operators of C17 6.5.3.3 on a value of a kind.
ghost use Rattle.std.specs.Prelude.{◌≡◌, IsTrue, neg_ℤ};
ghost use Rattle.k_num.specs.Kind.{is_held};
ghost use Rattle.k_num.specs.Arithmetic.{unary_value};

use crate::binary_operators::{given, is_zero, truth};
use crate::kinds::{modulus, remainder, value_of_bits};
use crate::{Kind, NumTrap, Un};

fn negated(kind: Kind, a: i128) -> i128
    requires { IsTrue (is_held kind a) }
    ensures { result ≡ neg_ℤ a }
{
    -a
}

fn complement(kind: Kind, a: i128) -> Result<i128, NumTrap>
    ensures { result ≡ unary_value Un.Complement kind a }
{
    Ok(value_of_bits(kind, modulus(kind) - 1 - remainder(kind, a)))
}

/// The value of `op a` in the kind of the operand, or why it has none.
pub fn unary(op: Un, kind: Kind, a: i128) -> Result<i128, NumTrap>
    requires { IsTrue (is_held kind a) }
    ensures { result ≡ unary_value op kind a }
{
    match op {
        Un::Neg => given(kind, negated(kind, a), NumTrap::Overflow),
        Un::Complement => complement(kind, a),
        Un::Not => Ok(truth(is_zero(a))),
    }
}
