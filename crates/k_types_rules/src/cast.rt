//! The rules of `sizeof` and of casts (C17 6.5.3.4, 6.5.4).
ghost use Rattle.std.specs.Prelude.{◌≡◌, ℕ, List, [], Some};
ghost use Rattle.k_types_meaning.specs.Made.{Fine};
ghost use Rattle.k_types_meaning.specs.Types.{number_kind, pointed, told as told_type};
ghost use Rattle.k_types_meaning.specs.Conversions as spec;
ghost use Rattle.k_types_meaning.specs.Operands as rules;
ghost use Rattle.k_types_meaning.specs.declared.tree.expression.TExpr.TheVariants as trees;
ghost use Rattle.k_types_rules.specs.Views.{element_of, type_of, type_option, typed, Agrees};

use crate::constant::number;
use crate::conversion::at;
use crate::element::ElementView;
use crate::judged::{TypedExpr, wrong};
use crate::view::{TypeView, are_equal, kind_of, pointed_by, size, told};
use k_num::{Box, Kind, Place};
use k_types_meaning::{TExpr, TypeFault};
use std::alloc::Global;

/// `sizeof` of an expression, which is not evaluated (C17 6.5.3.4).
#[tactic(auto, unfolding(k_types_meaning::specs::Operands::sizeof_rule))]
pub fn sizeof_rule<'a>(
    alloc: Global,
    place: Place,
    of: TypedExpr<'_>,
) -> Result<TypedExpr<'a>, TypeFault>
    ensures { (t : List ℕ) → Agrees result t (rules.sizeof_rule place (typed of.entry t)) }
{
    let seen = of.of;
    drop(of);
    size_number(alloc, place, seen)
}

/// The size of a type, as a number; `void` has none (C17 6.5.3.4).
fn size_number<'a>(
    alloc: Global,
    place: Place,
    of: TypeView<'_>,
) -> Result<TypedExpr<'a>, TypeFault>
    ensures { (t : List ℕ) → Agrees result t (rules.size_number place t (type_of of.entry)) }
{
    match of {
        TypeView::Void => Err(TypeFault::Kinds(place)),
        TypeView::Number(_) | TypeView::Pointer(_) | TypeView::Array(_, _) => {
            let Some(bytes) = size(of) else {
                return Err(TypeFault::Memory);
            };
            let tree = number(alloc, place, Kind::U64, i128::from(bytes))?;
            Ok(TypedExpr {
                tree,
                of: TypeView::Number(Kind::U64),
                place: None,
            })
        }
    }
}

/// `sizeof` of a type that may be none (C17 6.5.3.4).
pub fn sizeof_named<'a>(
    alloc: Global,
    place: Place,
    of: Option<TypeView<'_>>,
) -> Result<TypedExpr<'a>, TypeFault>
    ensures { Agrees result [] (rules.size_named place (type_option of.entry)) }
{
    match of {
        None => Err(TypeFault::Kinds(place)),
        Some(of) => size_number(alloc, place, of),
    }
}

/// A cast to a type that may be none: casts go between kinds, to void, or to the same pointer (C17 6.5.4).
pub fn cast_to_named<'a>(
    alloc: Global,
    place: Place,
    to: Option<TypeView<'a>>,
    of: TypedExpr<'a>,
) -> Result<TypedExpr<'a>, TypeFault>
    ensures { (t : List ℕ) → Agrees result t (rules.cast_to place (type_option to.entry) (typed of.entry t)) }
{
    match to {
        None => wrong(place, of),
        Some(to) => cast_to(alloc, place, to, of),
    }
}

/// A cast to a type.
fn cast_to<'a>(
    alloc: Global,
    place: Place,
    to: TypeView<'a>,
    of: TypedExpr<'a>,
) -> Result<TypedExpr<'a>, TypeFault>
    ensures { (t : List ℕ) → Agrees result t (rules.cast_to place (Some (type_of to.entry)) (typed of.entry t)) }
{
    match to {
        TypeView::Void => casted(alloc, place, TypeView::Void, of.tree),
        TypeView::Number(kind) => cast_number(alloc, place, kind, of),
        TypeView::Pointer(element) => cast_pointer(alloc, place, element, of),
        TypeView::Array(_, _) => wrong(place, of),
    }
}

/// A cast to a kind takes a number.
fn cast_number<'a>(
    alloc: Global,
    place: Place,
    to: Kind,
    of: TypedExpr<'a>,
) -> Result<TypedExpr<'a>, TypeFault>
    ensures { (t : List ℕ) → Agrees result t (rules.cast_number place to (typed of.entry t) (number_kind (type_of of.entry.of))) }
{
    let Some(_) = kind_of(of.of) else {
        return wrong(place, of);
    };
    casted(alloc, place, TypeView::Number(to), of.tree)
}

/// A cast to a pointer takes an equal pointer.
fn cast_pointer<'a>(
    alloc: Global,
    place: Place,
    to: ElementView<'a>,
    of: TypedExpr<'a>,
) -> Result<TypedExpr<'a>, TypeFault>
    ensures { (t : List ℕ) → Agrees result t (rules.cast_pointer place (element_of to.entry) (typed of.entry t) (pointed (type_of of.entry.of))) }
{
    let Some(from) = pointed_by(of.of) else {
        return wrong(place, of);
    };
    if !are_equal(to, from) {
        return wrong(place, of);
    }
    casted(alloc, place, TypeView::Pointer(to), of.tree)
}

/// An expression, cast to a type.
fn casted<'a>(
    alloc: Global,
    place: Place,
    to: TypeView<'a>,
    of: Box<TExpr>,
) -> Result<TypedExpr<'a>, TypeFault>
    ensures { (t : List ℕ) → Agrees result t (Fine (rules.value (type_of to.entry) (trees.Cast (spec.at place (told_type (type_of to.entry))) of) t)) }
{
    let node = at(place, told(to)?);
    let tree = Box::new(alloc, TExpr::Cast { node, of })?;
    Ok(TypedExpr {
        tree,
        of: to,
        place: None,
    })
}
