//! The rules of operators with one operand (C17 6.5.3).
ghost use Rattle.std.specs.Prelude.{◌≡◌, ℕ, List};
ghost use Rattle.k_types_meaning.specs.Types.{number_kind};
ghost use Rattle.k_types_meaning.specs.Operands as rules;
ghost use Rattle.k_types_rules.specs.Views.{type_of, typed, Agrees, AgreesAfter};

use crate::conversion::{at, in_kind};
use crate::judged::{TypedExpr, wrong};
use crate::place::{address_rule, deref_rule};
use crate::view::{TypeView, kind_of};
use k_num::{Box, Kind, Place, Seq, Un, promote};
use k_tree::Mark;
use k_types_meaning::{TExpr, TType, TypeFault};
use std::alloc::Global;

/// The operators with one operand: `& * + - ~ !` (C17 6.5.3).
#[tactic(auto, unfolding(k_types_meaning::specs::Operands::unary_rule))]
pub fn unary_rule<'a>(
    alloc: Global,
    place: Place,
    op: Mark,
    of: TypedExpr<'a>,
    taken: &mut Seq<u32>,
) -> Result<TypedExpr<'a>, TypeFault>
    ensures { (t : List ℕ) → AgreesAfter result t taken.old taken.new (rules.unary_rule place op (typed of.entry t)) }
{
    match op {
        Mark::Ampersand => address_rule(alloc, place, of, taken),
        Mark::Star => deref_rule(alloc, place, of),
        Mark::Plus => plus_rule(alloc, place, of),
        Mark::Minus => arithmetic_rule(alloc, place, Un::Neg, of),
        Mark::Tilde => arithmetic_rule(alloc, place, Un::Complement, of),
        Mark::Exclaim => arithmetic_rule(alloc, place, Un::Not, of),
        _ => wrong(place, of),
    }
}

/// `+` of a number, which is promoted (C17 6.5.3.3p2).
fn plus_rule<'a>(alloc: Global, place: Place, of: TypedExpr<'a>) -> Result<TypedExpr<'a>, TypeFault>
    ensures { (t : List ℕ) → Agrees result t (rules.of_number place (typed of.entry t) (number_kind (type_of of.entry.of)) (rules.plus_of place (typed of.entry t))) }
{
    let Some(from) = kind_of(of.of) else {
        return wrong(place, of);
    };
    let kind = promote(from);
    let of = in_kind(alloc, from, kind, of.tree)?;
    let node = at(place, TType::Number(kind));
    let tree = Box::new(alloc, TExpr::Plus { node, of })?;
    Ok(TypedExpr {
        tree,
        of: TypeView::Number(kind),
        place: None,
    })
}

/// `- ~ !` of a number, which is promoted (C17 6.5.3.3p3 to p5).
fn arithmetic_rule<'a>(
    alloc: Global,
    place: Place,
    op: Un,
    of: TypedExpr<'a>,
) -> Result<TypedExpr<'a>, TypeFault>
    ensures { (t : List ℕ) → Agrees result t (rules.of_number place (typed of.entry t) (number_kind (type_of of.entry.of)) (rules.unary_of place op (typed of.entry t))) }
{
    let Some(from) = kind_of(of.of) else {
        return wrong(place, of);
    };
    let kind = promote(from);
    let result_kind = unary_kind(op, kind);
    let of = in_kind(alloc, from, kind, of.tree)?;
    let node = at(place, TType::Number(result_kind));
    let tree = Box::new(alloc, TExpr::Unary { node, op, kind, of })?;
    Ok(TypedExpr {
        tree,
        of: TypeView::Number(result_kind),
        place: None,
    })
}

/// The kind of `- ~ !` of a number of a promoted kind.
fn unary_kind(op: Un, kind: Kind) -> Kind
    ensures { result ≡ rules.unary_kind op kind }
{
    match op {
        Un::Neg | Un::Complement => kind,
        Un::Not => Kind::I32,
    }
}
