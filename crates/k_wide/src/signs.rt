//! How an expression is spelled without its places, and whether two are the same.
ghost use Rattle.std.specs.Prelude.{◌≡◌, ◌&&◌, not, ◌++◌, ◌∷◌, OnOk, IfOk};
ghost use Rattle.std.specs.List.{list_any};
ghost use Rattle.std.specs.Cmp.Lexicographic.{pointwise};
ghost use Rattle.k_wide_meaning.specs.Signs.{signs_of, is_other, are_same};
ghost use Rattle.k_wide_meaning.specs.contracts.signs.SignPartialEq.TheImpl as sign_equality;

use k_num::NoMemory;
use k_types_meaning::TExpr;
use k_wide_meaning::Sign;
use std::alloc::Global;

/// Notes the signs of an expression.
#[cycle(expressions)]
fn note_signs(expr: &TExpr, signs: &mut Vec<Sign>) -> Result<(), NoMemory>
    ensures { OnOk result (signs.new.items ≡ signs.old.items ++ signs_of expr.now) }
{
    match expr {
        TExpr::Number { value, .. } => Ok(signs.push(Sign::Number(*value))?),
        TExpr::Object { object, .. } => Ok(signs.push(Sign::Object(*object))?),
        TExpr::Variable { variable, .. } => Ok(signs.push(Sign::Variable(*variable))?),
        TExpr::Address { of, .. } => note_one(Sign::Address, of.get(), signs),
        TExpr::Deref { of, .. } => note_one(Sign::Deref, of.get(), signs),
        TExpr::Plus { of, .. } => note_one(Sign::Plus, of.get(), signs),
        TExpr::Unary { op, kind, of, .. } => note_one(Sign::Unary(*op, *kind), of.get(), signs),
        TExpr::Convert { node, of } => note_one(Sign::Convert(node.of), of.get(), signs),
        TExpr::Cast { node, of } => note_one(Sign::Cast(node.of), of.get(), signs),
        TExpr::Index { base, index, .. } => note_two(Sign::Index, base.get(), index.get(), signs),
        TExpr::Binary {
            op,
            kind,
            left,
            right,
            ..
        } => note_two(Sign::Binary(*op, *kind), left.get(), right.get(), signs),
        TExpr::Both { left, right, .. } => note_two(Sign::Both, left.get(), right.get(), signs),
        TExpr::Either { left, right, .. } => note_two(Sign::Either, left.get(), right.get(), signs),
        TExpr::Forward { left, right, .. } => note_two(
            Sign::Forward,
            left.get(),
            right.get(),
            signs,
        ),
        TExpr::Onto { left, right, .. } => note_two(Sign::Onto, left.get(), right.get(), signs),
        TExpr::Back { left, right, .. } => note_two(Sign::Back, left.get(), right.get(), signs),
        TExpr::PtrCompare {
            op,
            left,
            right,
            ..
        } => note_two(Sign::PtrCompare(*op), left.get(), right.get(), signs),
        TExpr::PtrDistance { left, right, .. } => note_two(
            Sign::PtrDistance,
            left.get(),
            right.get(),
            signs,
        ),
        TExpr::Comma { left, right, .. } => note_two(Sign::Comma, left.get(), right.get(), signs),
        TExpr::Cond {
            test,
            then,
            other,
            ..
        } => note_three(test.get(), then.get(), other.get(), signs),
        _ => Ok(signs.push(Sign::Other)?),
    }
}

/// Notes an operator and its operand.
#[cycle(expressions)]
fn note_one(sign: Sign, of: &TExpr, signs: &mut Vec<Sign>) -> Result<(), NoMemory>
    ensures { OnOk result (signs.new.items ≡ signs.old.items ++ sign ∷ signs_of of.now) }
{
    signs.push(sign)?;
    note_signs(of, signs)
}

/// Notes an operator and its two operands.
#[cycle(expressions)]
fn note_two(sign: Sign, left: &TExpr, right: &TExpr, signs: &mut Vec<Sign>) -> Result<(), NoMemory>
    ensures { OnOk result (signs.new.items ≡ signs.old.items ++ sign ∷ (signs_of left.now ++ signs_of right.now)) }
{
    signs.push(sign)?;
    note_signs(left, signs)?;
    note_signs(right, signs)
}

/// Notes a choice.
#[cycle(expressions)]
fn note_three(
    test: &TExpr,
    first: &TExpr,
    second: &TExpr,
    signs: &mut Vec<Sign>,
) -> Result<(), NoMemory>
    ensures { OnOk result (signs.new.items ≡ signs.old.items ++ Sign.Cond ∷ (signs_of test.now ++ (signs_of first.now ++ signs_of second.now))) }
{
    signs.push(Sign::Cond)?;
    note_signs(test, signs)?;
    note_signs(first, signs)?;
    note_signs(second, signs)
}

/// Whether a sign stands for a side effect, a call or a string.
fn is_other(sign: Sign) -> bool
    ensures { result ≡ is_other sign }
{
    matches!(sign, Sign::Other)
}

/// Whether one of these signs stands for a side effect, a call or a string.
fn has_other(signs: &[Sign]) -> bool
    ensures { result ≡ list_any is_other signs.now }
{
    signs.iter().any(|sign| is_other(*sign))
}

/// Whether these signs are the same.
fn are_equal(signs: &[Sign], others: &[Sign]) -> bool
    ensures { result ≡ pointwise sign_equality.ghosts.eq signs.now others.now }
{
    signs == others
}

/// Whether these signs are the same, and none stands for a side effect, a call or a string.
fn are_pure(signs: &[Sign], others: &[Sign]) -> bool
    ensures { result ≡ (pointwise sign_equality.ghosts.eq signs.now others.now && not (list_any is_other signs.now)) }
{
    are_equal(signs, others) && !has_other(signs)
}

/// Whether two expressions are the same up to places, and have no side effect and no call.
pub fn are_same(alloc: Global, first: &TExpr, second: &TExpr) -> Result<bool, NoMemory>
    ensures { IfOk result (λ same. same ≡ are_same first.now second.now) }
{
    let mut signs = Vec::new(alloc);
    note_signs(first, &mut signs)?;
    let mut others = Vec::new(alloc);
    note_signs(second, &mut others)?;
    Ok(are_pure(signs.as_slice(), others.as_slice()))
}
