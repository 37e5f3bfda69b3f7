//! The rules of `++` and `--`, and of what may be written (C17 6.5.2.4, 6.5.3.1, 6.5.16p2).
ghost use Rattle.std.specs.Prelude.{◌≡◌, ℕ, List};
ghost use Rattle.k_types_meaning.specs.Conversions.{Typed};
ghost use Rattle.k_types_meaning.specs.Operands as rules;
ghost use Rattle.k_types_rules.specs.Views.{type_of, typed, Agrees, Writes};

use crate::conversion::at;
use crate::judged::{TypedExpr, wrong};
use crate::view::{TypeView, decayed, told};
use k_num::{Bin, Box, Kind, Place, common};
use k_tree::Mark;
use k_types_meaning::{Change, TExpr, TypeFault};
use std::alloc::Global;

/// Whether something is a place that can be written, or else the fault (C17 6.5.16p2).
pub(crate) fn check_written(place: Place, target: Option<bool>) -> Result<(), TypeFault>
    ensures { (v : Typed) → Writes result v (rules.written place target v) }
{
    match target {
        None => Err(TypeFault::NotPlace(place)),
        Some(true) => Err(TypeFault::ConstWrite(place)),
        Some(false) => Ok(()),
    }
}

/// What `++` or `--` does to a number or a pointer.
fn step_change(op: Mark, of: TypeView<'_>) -> Option<Change>
    ensures { result ≡ rules.step_change op (type_of of.entry) }
{
    match of {
        TypeView::Void => None,
        TypeView::Number(kind) => Some(Change::Number(step_operator(op), common(kind, Kind::I32))),
        TypeView::Pointer(_) | TypeView::Array(_, _) => Some(step_move(op)),
    }
}

/// The operator of `++` or `--`.
fn step_operator(op: Mark) -> Bin
    ensures { result ≡ rules.step_operator op }
{
    match op {
        Mark::MinusMinus => Bin::Sub,
        _ => Bin::Add,
    }
}

/// Where `++` or `--` moves a pointer.
fn step_move(op: Mark) -> Change
    ensures { result ≡ rules.step_move op }
{
    match op {
        Mark::MinusMinus => Change::Back,
        _ => Change::Forward,
    }
}

/// `++` or `--` behind its operand (C17 6.5.2.4).
#[tactic(auto, unfolding(k_types_meaning::specs::Operands::post_rule))]
pub fn post_rule<'a>(
    alloc: Global,
    place: Place,
    op: Mark,
    of: TypedExpr<'a>,
) -> Result<TypedExpr<'a>, TypeFault>
    ensures { (t : List ℕ) → Agrees result t (rules.post_rule place op (typed of.entry t)) }
{
    let Some(change) = step_change(op, of.of) else {
        return wrong(place, of);
    };
    check_written(place, of.place)?;
    let seen = decayed(of.of);
    let node = at(place, told(of.of)?);
    let of = of.tree;
    let tree = Box::new(alloc, TExpr::Post { node, change, of })?;
    Ok(TypedExpr {
        tree,
        of: seen,
        place: None,
    })
}

/// `++` or `--` before its operand (C17 6.5.3.1).
#[tactic(auto, unfolding(k_types_meaning::specs::Operands::pre_rule))]
pub fn pre_rule<'a>(
    alloc: Global,
    place: Place,
    op: Mark,
    of: TypedExpr<'a>,
) -> Result<TypedExpr<'a>, TypeFault>
    ensures { (t : List ℕ) → Agrees result t (rules.pre_rule place op (typed of.entry t)) }
{
    let Some(change) = step_change(op, of.of) else {
        return wrong(place, of);
    };
    check_written(place, of.place)?;
    let seen = decayed(of.of);
    let node = at(place, told(of.of)?);
    let of = of.tree;
    let tree = Box::new(alloc, TExpr::Pre { node, change, of })?;
    Ok(TypedExpr {
        tree,
        of: seen,
        place: None,
    })
}
