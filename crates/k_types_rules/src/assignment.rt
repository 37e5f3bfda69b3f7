//! The rules of assignments (C17 6.5.16).
ghost use Rattle.std.specs.Prelude.{◌≡◌, ℕ, List, ◌++◌};
ghost use Rattle.k_types_meaning.specs.Operators as rules;
ghost use Rattle.k_types_meaning.specs.Operators.{ANumber, APointer, operand};
ghost use Rattle.k_types_meaning.specs.Conversions.{Typed};
ghost use Rattle.k_types_meaning.specs.declared.types.Element.{Element};
ghost use Rattle.k_types_rules.specs.Views.{element_of, type_of, typed, Agrees};

use crate::conversion::{at, number_in_kind, passed};
use crate::judged::{TypedExpr, wrong, wrong_pair};
use crate::step::check_written;
use crate::view::{TypeView, decayed, told};
use k_num::{Bin, Box, Kind, Place, common, promote};
use k_tree::{Mark, compound_operator_of};
use k_types_meaning::{Change, TExpr, TypeFault};
use std::alloc::Global;

/// `=` and the compound assignments (C17 6.5.16).
#[tactic(auto, unfolding(k_types_meaning::specs::Operators::assign_rule))]
pub fn assign_rule<'a>(
    alloc: Global,
    place: Place,
    op: Mark,
    left: TypedExpr<'a>,
    right: TypedExpr<'a>,
) -> Result<TypedExpr<'a>, TypeFault>
    ensures { (l r : List ℕ) → Agrees result (l ++ r) (rules.assign_rule place op (typed left.entry l) (typed right.entry r)) }
{
    match compound_operator_of(op) {
        None => set_rule(alloc, place, left, right),
        Some(op) => changed_by(alloc, place, op, left, right),
    }
}

/// `=`, where an array on its left counts as the pointer that it gives (C17 6.5.16.1).
fn set_rule<'a>(
    alloc: Global,
    place: Place,
    left: TypedExpr<'a>,
    right: TypedExpr<'a>,
) -> Result<TypedExpr<'a>, TypeFault>
    ensures { (l r : List ℕ) → Agrees result (l ++ r) (rules.set_rule place (typed left.entry l) (typed right.entry r)) }
{
    let Some(right) = passed(alloc, left.of, right)? else {
        return wrong(place, left);
    };
    check_written(place, left.place)?;
    let of = decayed(left.of);
    let node = at(place, told(left.of)?);
    let left = left.tree;
    let tree = Box::new(alloc, TExpr::Assign { node, left, right })?;
    Ok(TypedExpr {
        tree,
        of,
        place: None,
    })
}

/// A compound assignment, by what its left side is.
fn changed_by<'a>(
    alloc: Global,
    place: Place,
    op: Bin,
    left: TypedExpr<'a>,
    right: TypedExpr<'a>,
) -> Result<TypedExpr<'a>, TypeFault>
    ensures { (l r : List ℕ) → Agrees result (l ++ r) (rules.changed_by place op (operand (type_of left.entry.of)) (operand (type_of right.entry.of)) (typed left.entry l) (typed right.entry r)) }
{
    match left.of {
        TypeView::Void => wrong_pair(place, left, right),
        TypeView::Number(kind) => number_changed(alloc, place, op, kind, left, right),
        TypeView::Pointer(_) => pointer_changed(alloc, place, op, left, right),
        TypeView::Array(_, _) => pointer_changed(alloc, place, op, left, right),
    }
}

/// A compound assignment to a number. A right side that is a number is converted.
fn number_changed<'a>(
    alloc: Global,
    place: Place,
    op: Bin,
    kind: Kind,
    left: TypedExpr<'a>,
    right: TypedExpr<'a>,
) -> Result<TypedExpr<'a>, TypeFault>
    ensures { (l r : List ℕ) → Agrees result (l ++ r) (rules.changed_by place op (ANumber kind) (operand (type_of right.entry.of)) (typed left.entry l) (typed right.entry r)) }
{
    let TypeView::Number(other) = right.of else {
        return wrong_pair(place, left, right);
    };
    let change = Change::Number(op, change_kind(op, kind, other));
    let right = number_in_kind(alloc, other, right_kind(op, kind, other), right.tree)?;
    changed(alloc, place, left, change, right)
}

/// The kind in which a compound assignment operates on numbers.
fn change_kind(op: Bin, kind: Kind, other: Kind) -> Kind
    ensures { result ≡ rules.change_kind op kind other }
{
    match op {
        Bin::Shl | Bin::Shr => promote(kind),
        _ => common(kind, other),
    }
}

/// The kind to which the right side of a compound assignment is converted.
fn right_kind(op: Bin, kind: Kind, other: Kind) -> Kind
    ensures { result ≡ rules.right_kind op kind other }
{
    match op {
        Bin::Shl | Bin::Shr => promote(other),
        _ => common(kind, other),
    }
}

/// `+=` and `-=` of a pointer, which take a number.
fn pointer_changed<'a>(
    alloc: Global,
    place: Place,
    op: Bin,
    left: TypedExpr<'a>,
    right: TypedExpr<'a>,
) -> Result<TypedExpr<'a>, TypeFault>
    ensures { (e : Element) (l r : List ℕ) → Agrees result (l ++ r) (rules.changed_by place op (APointer e) (operand (type_of right.entry.of)) (typed left.entry l) (typed right.entry r)) }
{
    match right.of {
        TypeView::Number(_) => moved(alloc, place, op, left, right),
        TypeView::Void | TypeView::Pointer(_) | TypeView::Array(_, _) => {
            wrong_pair(place, left, right)
        }
    }
}

/// A pointer that is moved by a number.
fn moved<'a>(
    alloc: Global,
    place: Place,
    op: Bin,
    left: TypedExpr<'a>,
    right: TypedExpr<'a>,
) -> Result<TypedExpr<'a>, TypeFault>
    ensures { (l r : List ℕ) → Agrees result (l ++ r) (rules.moved place op (typed left.entry l) (typed right.entry r)) }
{
    match op {
        Bin::Add => changed(alloc, place, left, Change::Forward, right.tree),
        Bin::Sub => changed(alloc, place, left, Change::Back, right.tree),
        _ => wrong_pair(place, left, right),
    }
}

/// A compound assignment with this change, whose right side is finished.
fn changed<'a>(
    alloc: Global,
    place: Place,
    left: TypedExpr<'a>,
    change: Change,
    right: Box<TExpr>,
) -> Result<TypedExpr<'a>, TypeFault>
    ensures { (l : List ℕ) (other : Typed) → Agrees result (l ++ other.taken) (rules.changed place (typed left.entry l) other change right) }
{
    check_written(place, left.place)?;
    let of = decayed(left.of);
    let node = at(place, told(left.of)?);
    let left = left.tree;
    let tree = Box::new(
        alloc,
        TExpr::AssignBy {
            node,
            change,
            left,
            right,
        },
    )?;
    Ok(TypedExpr {
        tree,
        of,
        place: None,
    })
}
