//! The rules of operators with two or three operands (C17 6.5.5 to 6.5.17).
ghost use Rattle.std.specs.Prelude.{◌≡◌, ℕ, List, ◌++◌, Option, Some, None};
ghost use Rattle.k_num.specs.Kind.{common_kind};
ghost use Rattle.k_num.specs.declared.numbers.Kind.TheVariants as kinds;
ghost use Rattle.k_types_meaning.specs.Made.{Fine};
ghost use Rattle.k_types_meaning.specs.Types.{pointer_to, told as told_type};
ghost use Rattle.k_types_meaning.specs.Conversions as spec;
ghost use Rattle.k_types_meaning.specs.Operands.{number, value};
ghost use Rattle.k_types_meaning.specs.declared.types.CType.TheVariants as ctypes;
ghost use Rattle.k_types_meaning.specs.declared.types.TType.TheVariants as ttypes;
ghost use Rattle.k_types_meaning.specs.declared.tree.expression.TExpr.TheVariants as trees;
ghost use Rattle.k_types_meaning.specs.Operators as rules;
ghost use Rattle.k_types_meaning.specs.Operators.{ANumber, APointer, Nothing, operand};
ghost use Rattle.k_types_rules.specs.Views.{element_of, type_of, typed, Agrees};

use crate::conversion::{at, in_kind};
use crate::element::ElementView;
use crate::judged::{TypedExpr, wrong_pair, wrong_three};
use crate::view::{TypeView, are_alike, are_equal, decayed, kind_of, told, told_pointer};
use k_num::{Bin, Box, Kind, Place, common, promote};
use k_tree::{Mark, operator_of};
use k_types_meaning::{TExpr, TType, TypeFault};
use std::alloc::Global;

/// The binary operators (C17 6.5.5 to 6.5.14).
#[tactic(auto, unfolding(k_types_meaning::specs::Operators::binary_rule))]
pub fn binary_rule<'a>(
    alloc: Global,
    place: Place,
    op: Mark,
    left: TypedExpr<'a>,
    right: TypedExpr<'a>,
) -> Result<TypedExpr<'a>, TypeFault>
    ensures { (l r : List ℕ) → Agrees result (l ++ r) (rules.binary_rule place op (typed left.entry l) (typed right.entry r)) }
{
    match operator_of(op) {
        None => wrong_pair(place, left, right),
        Some(op) => operated(alloc, place, op, left, right),
    }
}

/// An operation, by what its left operand is.
fn operated<'a>(
    alloc: Global,
    place: Place,
    op: Bin,
    left: TypedExpr<'a>,
    right: TypedExpr<'a>,
) -> Result<TypedExpr<'a>, TypeFault>
    ensures { (l r : List ℕ) → Agrees result (l ++ r) (rules.operated place op (operand (type_of left.entry.of)) (operand (type_of right.entry.of)) (typed left.entry l) (typed right.entry r)) }
{
    match left.of {
        TypeView::Void => wrong_pair(place, left, right),
        TypeView::Number(kind) => number_operated(alloc, place, op, kind, left, right),
        TypeView::Pointer(element) => pointer_operated(alloc, place, op, element, left, right),
        TypeView::Array(_, element) => pointer_operated(alloc, place, op, element, left, right),
    }
}

/// An operation whose left operand is a number.
fn number_operated<'a>(
    alloc: Global,
    place: Place,
    op: Bin,
    kind: Kind,
    left: TypedExpr<'a>,
    right: TypedExpr<'a>,
) -> Result<TypedExpr<'a>, TypeFault>
    ensures { (l r : List ℕ) → Agrees result (l ++ r) (rules.operated place op (ANumber kind) (operand (type_of right.entry.of)) (typed left.entry l) (typed right.entry r)) }
{
    match right.of {
        TypeView::Void => wrong_pair(place, left, right),
        TypeView::Number(other) => on_numbers(alloc, place, op, kind, other, left, right),
        TypeView::Pointer(element) => number_and_pointer(alloc, place, op, element, left, right),
        TypeView::Array(_, element) => number_and_pointer(alloc, place, op, element, left, right),
    }
}

/// An operation whose left operand is a pointer.
fn pointer_operated<'a>(
    alloc: Global,
    place: Place,
    op: Bin,
    element: ElementView<'a>,
    left: TypedExpr<'a>,
    right: TypedExpr<'a>,
) -> Result<TypedExpr<'a>, TypeFault>
    ensures { (l r : List ℕ) → Agrees result (l ++ r) (rules.operated place op (APointer (element_of element.entry)) (operand (type_of right.entry.of)) (typed left.entry l) (typed right.entry r)) }
{
    match right.of {
        TypeView::Void => wrong_pair(place, left, right),
        TypeView::Number(_) => pointer_and_number(alloc, place, op, element, left, right),
        TypeView::Pointer(other) => two_pointers(alloc, place, op, element, other, left, right),
        TypeView::Array(_, other) => two_pointers(alloc, place, op, element, other, left, right),
    }
}

/// An operation on two numbers.
fn on_numbers<'a>(
    alloc: Global,
    place: Place,
    op: Bin,
    kind: Kind,
    other: Kind,
    left: TypedExpr<'a>,
    right: TypedExpr<'a>,
) -> Result<TypedExpr<'a>, TypeFault>
    ensures { (l r : List ℕ) → Agrees result (l ++ r) (Fine (rules.on_numbers place op kind other (typed left.entry l) (typed right.entry r))) }
{
    match op {
        Bin::LogAnd => both(alloc, place, left.tree, right.tree),
        Bin::LogOr => either(alloc, place, left.tree, right.tree),
        Bin::Shl | Bin::Shr => shift_of(alloc, place, op, kind, other, left, right),
        Bin::Lt | Bin::Le | Bin::Gt | Bin::Ge | Bin::Eq | Bin::Ne => {
            common_of(alloc, place, op, Kind::I32, kind, other, left, right)
        }
        Bin::Add | Bin::Sub | Bin::Mul | Bin::Div | Bin::Rem | Bin::And | Bin::Or | Bin::Xor => {
            let common_kind = common(kind, other);
            common_of(alloc, place, op, common_kind, kind, other, left, right)
        }
    }
}

/// `&&` of two numbers (C17 6.5.13).
fn both<'a>(
    alloc: Global,
    place: Place,
    left: Box<TExpr>,
    right: Box<TExpr>,
) -> Result<TypedExpr<'a>, TypeFault>
    ensures { (t : List ℕ) → Agrees result t (Fine (number kinds.I32 (trees.Both (spec.at place (ttypes.Number kinds.I32)) left right) t)) }
{
    let node = at(place, TType::Number(Kind::I32));
    let tree = Box::new(alloc, TExpr::Both { node, left, right })?;
    Ok(TypedExpr {
        tree,
        of: TypeView::Number(Kind::I32),
        place: None,
    })
}

/// `||` of two numbers (C17 6.5.14).
fn either<'a>(
    alloc: Global,
    place: Place,
    left: Box<TExpr>,
    right: Box<TExpr>,
) -> Result<TypedExpr<'a>, TypeFault>
    ensures { (t : List ℕ) → Agrees result t (Fine (number kinds.I32 (trees.Either (spec.at place (ttypes.Number kinds.I32)) left right) t)) }
{
    let node = at(place, TType::Number(Kind::I32));
    let tree = Box::new(alloc, TExpr::Either { node, left, right })?;
    Ok(TypedExpr {
        tree,
        of: TypeView::Number(Kind::I32),
        place: None,
    })
}

/// A shift, of which each side is promoted alone (C17 6.5.7p3).
fn shift_of<'a>(
    alloc: Global,
    place: Place,
    op: Bin,
    from: Kind,
    other: Kind,
    left: TypedExpr<'a>,
    right: TypedExpr<'a>,
) -> Result<TypedExpr<'a>, TypeFault>
    ensures { (l r : List ℕ) → Agrees result (l ++ r) (Fine (rules.shift_of place op from other (typed left.entry l) (typed right.entry r))) }
{
    let kind = promote(from);
    let left = in_kind(alloc, from, kind, left.tree)?;
    let right = in_kind(alloc, other, promote(other), right.tree)?;
    binary(alloc, place, op, kind, kind, left, right)
}

/// An operation on numbers in their common kind, whose result is of this kind (C17 6.3.1.8).
fn common_of<'a>(
    alloc: Global,
    place: Place,
    op: Bin,
    result_kind: Kind,
    from: Kind,
    other: Kind,
    left: TypedExpr<'a>,
    right: TypedExpr<'a>,
) -> Result<TypedExpr<'a>, TypeFault>
    ensures { (l r : List ℕ) → Agrees result (l ++ r) (Fine (rules.common_of place op result_kind (common_kind from other) from other (typed left.entry l) (typed right.entry r))) }
{
    let kind = common(from, other);
    let left = in_kind(alloc, from, kind, left.tree)?;
    let right = in_kind(alloc, other, kind, right.tree)?;
    binary(alloc, place, op, result_kind, kind, left, right)
}

/// An operation on converted numbers, made in a kind.
fn binary<'a>(
    alloc: Global,
    place: Place,
    op: Bin,
    result_kind: Kind,
    kind: Kind,
    left: Box<TExpr>,
    right: Box<TExpr>,
) -> Result<TypedExpr<'a>, TypeFault>
    ensures { (t : List ℕ) → Agrees result t (Fine (number result_kind (trees.Binary (spec.at place (ttypes.Number result_kind)) op kind left right) t)) }
{
    let node = at(place, TType::Number(result_kind));
    let tree = Box::new(
        alloc,
        TExpr::Binary {
            node,
            op,
            kind,
            left,
            right,
        },
    )?;
    Ok(TypedExpr {
        tree,
        of: TypeView::Number(result_kind),
        place: None,
    })
}

/// `+ -` of a pointer and a number (C17 6.5.6p2, p3).
fn pointer_and_number<'a>(
    alloc: Global,
    place: Place,
    op: Bin,
    element: ElementView<'a>,
    left: TypedExpr<'a>,
    right: TypedExpr<'a>,
) -> Result<TypedExpr<'a>, TypeFault>
    ensures { (l r : List ℕ) → Agrees result (l ++ r) (rules.pointer_and_number place op (element_of element.entry) (typed left.entry l) (typed right.entry r)) }
{
    match op {
        Bin::Add => forward(alloc, place, element, left.tree, right.tree),
        Bin::Sub => back(alloc, place, element, left.tree, right.tree),
        _ => wrong_pair(place, left, right),
    }
}

/// A pointer that is moved forward.
fn forward<'a>(
    alloc: Global,
    place: Place,
    element: ElementView<'a>,
    left: Box<TExpr>,
    right: Box<TExpr>,
) -> Result<TypedExpr<'a>, TypeFault>
    ensures { (t : List ℕ) → Agrees result t (Fine (value (ctypes.Pointer (element_of element.entry)) (trees.Forward (spec.at place (pointer_to (element_of element.entry))) left right) t)) }
{
    let node = at(place, told_pointer(element)?);
    let tree = Box::new(alloc, TExpr::Forward { node, left, right })?;
    Ok(TypedExpr {
        tree,
        of: TypeView::Pointer(element),
        place: None,
    })
}

/// A pointer that is moved back.
fn back<'a>(
    alloc: Global,
    place: Place,
    element: ElementView<'a>,
    left: Box<TExpr>,
    right: Box<TExpr>,
) -> Result<TypedExpr<'a>, TypeFault>
    ensures { (t : List ℕ) → Agrees result t (Fine (value (ctypes.Pointer (element_of element.entry)) (trees.Back (spec.at place (pointer_to (element_of element.entry))) left right) t)) }
{
    let node = at(place, told_pointer(element)?);
    let tree = Box::new(alloc, TExpr::Back { node, left, right })?;
    Ok(TypedExpr {
        tree,
        of: TypeView::Pointer(element),
        place: None,
    })
}

/// `+` of a number and a pointer (C17 6.5.6p2).
fn number_and_pointer<'a>(
    alloc: Global,
    place: Place,
    op: Bin,
    element: ElementView<'a>,
    left: TypedExpr<'a>,
    right: TypedExpr<'a>,
) -> Result<TypedExpr<'a>, TypeFault>
    ensures { (l r : List ℕ) → Agrees result (l ++ r) (rules.number_and_pointer place op (element_of element.entry) (typed left.entry l) (typed right.entry r)) }
{
    match op {
        Bin::Add => onto(alloc, place, element, left.tree, right.tree),
        _ => wrong_pair(place, left, right),
    }
}

/// A number that a pointer is moved by.
fn onto<'a>(
    alloc: Global,
    place: Place,
    element: ElementView<'a>,
    left: Box<TExpr>,
    right: Box<TExpr>,
) -> Result<TypedExpr<'a>, TypeFault>
    ensures { (t : List ℕ) → Agrees result t (Fine (value (ctypes.Pointer (element_of element.entry)) (trees.Onto (spec.at place (pointer_to (element_of element.entry))) left right) t)) }
{
    let node = at(place, told_pointer(element)?);
    let tree = Box::new(alloc, TExpr::Onto { node, left, right })?;
    Ok(TypedExpr {
        tree,
        of: TypeView::Pointer(element),
        place: None,
    })
}

/// Two pointers to equal elements are compared and have a difference (C17 6.5.6p3, 6.5.8p2, 6.5.9p2).
fn two_pointers<'a>(
    alloc: Global,
    place: Place,
    op: Bin,
    a: ElementView<'_>,
    b: ElementView<'_>,
    left: TypedExpr<'a>,
    right: TypedExpr<'a>,
) -> Result<TypedExpr<'a>, TypeFault>
    ensures { (l r : List ℕ) → Agrees result (l ++ r) (rules.two_pointers place op (element_of a.entry) (element_of b.entry) (typed left.entry l) (typed right.entry r)) }
{
    if !are_alike(a, b) {
        return wrong_pair(place, left, right);
    }
    equal_pointers(alloc, place, op, left, right)
}

/// Two pointers to equal elements.
fn equal_pointers<'a>(
    alloc: Global,
    place: Place,
    op: Bin,
    left: TypedExpr<'a>,
    right: TypedExpr<'a>,
) -> Result<TypedExpr<'a>, TypeFault>
    ensures { (l r : List ℕ) → Agrees result (l ++ r) (rules.equal_pointers place op (typed left.entry l) (typed right.entry r)) }
{
    match op {
        Bin::Sub => distance(alloc, place, left.tree, right.tree),
        Bin::Lt | Bin::Le | Bin::Gt | Bin::Ge | Bin::Eq | Bin::Ne => {
            comparison(alloc, place, op, left.tree, right.tree)
        }
        _ => wrong_pair(place, left, right),
    }
}

/// The difference of two pointers.
fn distance<'a>(
    alloc: Global,
    place: Place,
    left: Box<TExpr>,
    right: Box<TExpr>,
) -> Result<TypedExpr<'a>, TypeFault>
    ensures { (t : List ℕ) → Agrees result t (Fine (number kinds.I64 (trees.PtrDistance (spec.at place (ttypes.Number kinds.I64)) left right) t)) }
{
    let node = at(place, TType::Number(Kind::I64));
    let tree = Box::new(alloc, TExpr::PtrDistance { node, left, right })?;
    Ok(TypedExpr {
        tree,
        of: TypeView::Number(Kind::I64),
        place: None,
    })
}

/// A comparison of two pointers.
fn comparison<'a>(
    alloc: Global,
    place: Place,
    op: Bin,
    left: Box<TExpr>,
    right: Box<TExpr>,
) -> Result<TypedExpr<'a>, TypeFault>
    ensures { (t : List ℕ) → Agrees result t (Fine (number kinds.I32 (trees.PtrCompare (spec.at place (ttypes.Number kinds.I32)) op left right) t)) }
{
    let node = at(place, TType::Number(Kind::I32));
    let tree = Box::new(
        alloc,
        TExpr::PtrCompare {
            node,
            op,
            left,
            right,
        },
    )?;
    Ok(TypedExpr {
        tree,
        of: TypeView::Number(Kind::I32),
        place: None,
    })
}

/// `?:` of a number, and of two numbers, two equal pointers or nothing (C17 6.5.15).
#[tactic(auto, unfolding(k_types_meaning::specs::Operators::cond_rule))]
pub fn cond_rule<'a>(
    alloc: Global,
    place: Place,
    test: TypedExpr<'a>,
    first: TypedExpr<'a>,
    second: TypedExpr<'a>,
) -> Result<TypedExpr<'a>, TypeFault>
    ensures { (l m r : List ℕ) → Agrees result (l ++ (m ++ r)) (rules.cond_rule place (typed test.entry l) (typed first.entry m) (typed second.entry r)) }
{
    let Some(_) = kind_of(test.of) else {
        return wrong_three(place, test, first, second);
    };
    arms(alloc, place, test, first, second)
}

/// `?:`, by what its first arm is.
fn arms<'a>(
    alloc: Global,
    place: Place,
    test: TypedExpr<'a>,
    first: TypedExpr<'a>,
    second: TypedExpr<'a>,
) -> Result<TypedExpr<'a>, TypeFault>
    ensures { (l m r : List ℕ) → Agrees result (l ++ (m ++ r)) (rules.arms place (operand (type_of first.entry.of)) (operand (type_of second.entry.of)) (typed test.entry l) (typed first.entry m) (typed second.entry r)) }
{
    match first.of {
        TypeView::Void => void_arms(alloc, place, test, first, second),
        TypeView::Number(kind) => number_arms(alloc, place, kind, test, first, second),
        TypeView::Pointer(element) => pointer_arms(alloc, place, element, test, first, second),
        TypeView::Array(_, element) => pointer_arms(alloc, place, element, test, first, second),
    }
}

/// `?:` whose first arm is nothing.
fn void_arms<'a>(
    alloc: Global,
    place: Place,
    test: TypedExpr<'a>,
    first: TypedExpr<'a>,
    second: TypedExpr<'a>,
) -> Result<TypedExpr<'a>, TypeFault>
    ensures { (l m r : List ℕ) → Agrees result (l ++ (m ++ r)) (rules.arms place Nothing (operand (type_of second.entry.of)) (typed test.entry l) (typed first.entry m) (typed second.entry r)) }
{
    match second.of {
        TypeView::Void => cond(
            alloc,
            place,
            TypeView::Void,
            test.tree,
            first.tree,
            second.tree,
        ),
        TypeView::Number(_) | TypeView::Pointer(_) | TypeView::Array(_, _) => {
            wrong_three(place, test, first, second)
        }
    }
}

/// `?:` whose first arm is a number. Both arms are converted to their common kind.
fn number_arms<'a>(
    alloc: Global,
    place: Place,
    from: Kind,
    test: TypedExpr<'a>,
    first: TypedExpr<'a>,
    second: TypedExpr<'a>,
) -> Result<TypedExpr<'a>, TypeFault>
    ensures { (l m r : List ℕ) → Agrees result (l ++ (m ++ r)) (rules.arms place (ANumber from) (operand (type_of second.entry.of)) (typed test.entry l) (typed first.entry m) (typed second.entry r)) }
{
    let TypeView::Number(other) = second.of else {
        return wrong_three(place, test, first, second);
    };
    let kind = common(from, other);
    let then = in_kind(alloc, from, kind, first.tree)?;
    let other = in_kind(alloc, other, kind, second.tree)?;
    cond(alloc, place, TypeView::Number(kind), test.tree, then, other)
}

/// `?:` whose first arm is a pointer.
fn pointer_arms<'a>(
    alloc: Global,
    place: Place,
    element: ElementView<'a>,
    test: TypedExpr<'a>,
    first: TypedExpr<'a>,
    second: TypedExpr<'a>,
) -> Result<TypedExpr<'a>, TypeFault>
    ensures { (l m r : List ℕ) → Agrees result (l ++ (m ++ r)) (rules.arms place (APointer (element_of element.entry)) (operand (type_of second.entry.of)) (typed test.entry l) (typed first.entry m) (typed second.entry r)) }
{
    match second.of {
        TypeView::Void | TypeView::Number(_) => wrong_three(place, test, first, second),
        TypeView::Pointer(other) => equal_arms(alloc, place, element, other, test, first, second),
        TypeView::Array(_, other) => equal_arms(alloc, place, element, other, test, first, second),
    }
}

/// `?:` of two pointers.
fn equal_arms<'a>(
    alloc: Global,
    place: Place,
    element: ElementView<'a>,
    other: ElementView<'_>,
    test: TypedExpr<'a>,
    first: TypedExpr<'a>,
    second: TypedExpr<'a>,
) -> Result<TypedExpr<'a>, TypeFault>
    ensures { (l m r : List ℕ) → Agrees result (l ++ (m ++ r)) (rules.arms place (APointer (element_of element.entry)) (APointer (element_of other.entry)) (typed test.entry l) (typed first.entry m) (typed second.entry r)) }
{
    if !are_equal(element, other) {
        return wrong_three(place, test, first, second);
    }
    cond(
        alloc,
        place,
        TypeView::Pointer(element),
        test.tree,
        first.tree,
        second.tree,
    )
}

/// `?:` of a type, with its arms converted.
fn cond<'a>(
    alloc: Global,
    place: Place,
    of: TypeView<'a>,
    test: Box<TExpr>,
    then: Box<TExpr>,
    other: Box<TExpr>,
) -> Result<TypedExpr<'a>, TypeFault>
    ensures { (t : List ℕ) → Agrees result t (Fine (value (type_of of.entry) (trees.Cond (spec.at place (told_type (type_of of.entry))) test then other) t)) }
{
    let node = at(place, told(of)?);
    let tree = Box::new(
        alloc,
        TExpr::Cond {
            node,
            test,
            then,
            other,
        },
    )?;
    Ok(TypedExpr {
        tree,
        of,
        place: None,
    })
}

/// `left , right` has the value of its right operand (C17 6.5.17).
#[tactic(auto, unfolding(k_types_meaning::specs::Operators::comma_rule))]
pub fn comma_rule<'a>(
    alloc: Global,
    place: Place,
    left: TypedExpr<'a>,
    right: TypedExpr<'a>,
) -> Result<TypedExpr<'a>, TypeFault>
    ensures { (l r : List ℕ) → Agrees result (l ++ r) (rules.comma_rule place (typed left.entry l) (typed right.entry r)) }
{
    let of = decayed(right.of);
    let node = at(place, told(right.of)?);
    let tree = Box::new(
        alloc,
        TExpr::Comma {
            node,
            left: left.tree,
            right: right.tree,
        },
    )?;
    Ok(TypedExpr {
        tree,
        of,
        place: None,
    })
}
