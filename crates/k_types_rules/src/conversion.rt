//! Conversions of typed expressions (C17 6.3).
ghost use Rattle.std.specs.Prelude.{◌≡◌, ℕ, List, None, IfOk};
ghost use Rattle.k_types_meaning.specs.Types.{number_kind, pointed};
ghost use Rattle.k_types_rules.specs.Views.{element_of, type_of, typed};
ghost use Rattle.k_types_meaning.specs.Conversions as spec;
ghost use Rattle.k_types_meaning.specs.declared.tree.expression.TExpr.TheVariants as trees;

use crate::element::ElementView;
use crate::judged::TypedExpr;
use crate::view::{TypeView, are_alike, is_same_kind, kind_of, pointed_by};
use k_num::{Box, Kind, NoMemory, Place, convert};
use k_types_meaning::{Node, TExpr, TType, node_of};
use std::alloc::Global;

/// A node that has no number yet.
pub fn at(place: Place, of: TType) -> Node
    ensures { result ≡ spec.at place of }
{
    Node {
        number: 0,
        place,
        of,
    }
}

/// The value of a number.
pub fn number_in(e: &TExpr) -> Option<i128>
    ensures { result ≡ spec.number_in e.now }
{
    match e {
        TExpr::Number { value, .. } => Some(*value),
        _ => None,
    }
}

/// An expression of one kind in another: a number at once, others by a node.
#[tactic(auto, unfolding(k_types_meaning::specs::Conversions::in_kind))]
pub fn in_kind(alloc: Global, from: Kind, to: Kind, e: Box<TExpr>) -> Result<Box<TExpr>, NoMemory>
    ensures { IfOk result (λ tree. tree ≡ spec.in_kind from to e) }
{
    if is_same_kind(from, to) {
        return Ok(e);
    }
    conversion(alloc, to, e)
}

/// A conversion to another kind: of a number at once, of others by a node.
fn conversion(alloc: Global, to: Kind, e: Box<TExpr>) -> Result<Box<TExpr>, NoMemory>
    ensures { IfOk result (λ tree. tree ≡ spec.conversion to e (spec.number_in e)) }
{
    let node = at(node_of(e.get()).place, TType::Number(to));
    match number_in(e.get()) {
        None => Box::new(alloc, TExpr::Convert { node, of: e }),
        Some(value) => number_at(alloc, node, convert(to, value)),
    }
}

/// A number.
fn number_at(alloc: Global, node: Node, value: i128) -> Result<Box<TExpr>, NoMemory>
    ensures { IfOk result (λ tree. tree ≡ trees.Number node value) }
{
    Box::new(alloc, TExpr::Number { node, value })
}

/// An expression of one kind in another where it is a number, and as it is where not.
#[tactic(auto, unfolding(k_types_meaning::specs::Conversions::number_in_kind))]
pub fn number_in_kind(
    alloc: Global,
    from: Kind,
    to: Kind,
    e: Box<TExpr>,
) -> Result<Box<TExpr>, NoMemory>
    ensures { IfOk result (λ tree. tree ≡ spec.number_in_kind from to e) }
{
    match number_in(e.get()) {
        None => Ok(e),
        Some(_) => in_kind(alloc, from, to, e),
    }
}

/// A value that is assigned, passed, returned or given at the start to a number or a pointer, converted; none
/// where it is of a wrong kind (C17 6.5.16.1p1, 6.5.2.2p2, 6.7.9p11, 6.8.6.4p3).
#[tactic(auto, unfolding(k_types_meaning::specs::Conversions::passed))]
pub fn passed(
    alloc: Global,
    to: TypeView<'_>,
    v: TypedExpr<'_>,
) -> Result<Option<Box<TExpr>>, NoMemory>
    ensures { IfOk result (λ tree. (t : List ℕ) → tree ≡ spec.passed (type_of to.entry) (typed v.entry t)) }
{
    match to {
        TypeView::Void => refused(v),
        TypeView::Number(kind) => passed_number(alloc, kind, v),
        TypeView::Pointer(element) => passed_pointer(element, v),
        TypeView::Array(_, element) => passed_pointer(element, v),
    }
}

/// The value is of a wrong kind.
fn refused(v: TypedExpr<'_>) -> Result<Option<Box<TExpr>>, NoMemory>
    ensures { result ≡ Ok None }
{
    drop(v);
    Ok(None)
}

/// A value that is passed to a number.
fn passed_number(alloc: Global, to: Kind, v: TypedExpr<'_>) -> Result<Option<Box<TExpr>>, NoMemory>
    ensures { IfOk result (λ tree. tree ≡ spec.passed_number to v.entry.tree (number_kind (type_of v.entry.of))) }
{
    let Some(from) = kind_of(v.of) else {
        return refused(v);
    };
    let tree = in_kind(alloc, from, to, v.tree)?;
    Ok(Some(tree))
}

/// A value that is passed to a pointer: an equal pointer, of which no const is lost.
fn passed_pointer(to: ElementView<'_>, v: TypedExpr<'_>) -> Result<Option<Box<TExpr>>, NoMemory>
    ensures { IfOk result (λ tree. tree ≡ spec.passed_pointer (element_of to.entry) v.entry.tree (pointed (type_of v.entry.of))) }
{
    let Some(from) = pointed_by(v.of) else {
        return refused(v);
    };
    if !keeps_const(to, from) {
        return refused(v);
    }
    Ok(Some(v.tree))
}

/// Whether a pointer to one element may point to another: they are equal, and no const is lost.
fn keeps_const(to: ElementView<'_>, from: ElementView<'_>) -> bool
    ensures { result ≡ spec.keeps_const (element_of to.entry) (element_of from.entry) }
{
    are_alike(to, from) && (to.fixed || !from.fixed)
}
