//! The rules of places, and of what is behind a pointer: `[ ]`, `*` and `&` (C17 6.5.2.1, 6.5.3.2).
ghost use Rattle.std.specs.Prelude.{◌≡◌, ℕ, List, ◌++◌, OnOk};
ghost use Rattle.k_types_meaning.specs.Operands as rules;
ghost use Rattle.k_types_meaning.specs.declared.fault.TypeFault.TheVariants as fault;
ghost use Rattle.k_types_meaning.specs.declared.tree.expression.TExpr.{out-TExpr};
ghost use Rattle.k_types_rules.specs.Views.{type_of, typed, Agrees, AgreesAfter};

use crate::conversion::at;
use crate::element::ElementView;
use crate::judged::{TypedExpr, wrong, wrong_pair};
use crate::view::{TypeView, as_expression, kind_of, pointed_by, told, told_pointer};
use k_num::{Box, NoMemory, Place, Seq};
use k_types_meaning::{TExpr, TypeFault};
use std::alloc::Global;

/// Whether an object of a type is a place, and const.
pub(crate) fn place_of(of: TypeView<'_>, fixed: bool) -> Option<bool>
    ensures { result ≡ rules.place_of (type_of of.entry) fixed }
{
    match of {
        TypeView::Number(_) | TypeView::Pointer(_) => Some(fixed),
        TypeView::Void | TypeView::Array(_, _) => None,
    }
}

/// `[ ]`: a pointer or an array before it, and a number in it (C17 6.5.2.1p1).
#[tactic(auto, unfolding(k_types_meaning::specs::Operands::index_rule))]
pub fn index_rule<'a>(
    alloc: Global,
    place: Place,
    base: TypedExpr<'a>,
    index: TypedExpr<'a>,
) -> Result<TypedExpr<'a>, TypeFault>
    ensures { (l r : List ℕ) → Agrees result (l ++ r) (rules.index_rule place (typed base.entry l) (typed index.entry r)) }
{
    let Some(element) = pointed_by(base.of) else {
        return wrong_pair(place, base, index);
    };
    let Some(_) = kind_of(index.of) else {
        return wrong_pair(place, base, index);
    };
    let of = as_expression(element)?;
    let node = at(place, told(of)?);
    let tree = Box::new(
        alloc,
        TExpr::Index {
            node,
            base: base.tree,
            index: index.tree,
        },
    )?;
    Ok(TypedExpr {
        tree,
        of,
        place: place_of(of, element.fixed),
    })
}

/// `*` of a pointer or an array (C17 6.5.3.2p2).
pub(crate) fn deref_rule<'a>(
    alloc: Global,
    place: Place,
    of: TypedExpr<'a>,
) -> Result<TypedExpr<'a>, TypeFault>
    ensures { (t : List ℕ) → Agrees result t (rules.deref_rule place (typed of.entry t)) }
{
    let Some(element) = pointed_by(of.of) else {
        return wrong(place, of);
    };
    let seen = as_expression(element)?;
    let node = at(place, told(seen)?);
    let tree = Box::new(alloc, TExpr::Deref { node, of: of.tree })?;
    Ok(TypedExpr {
        tree,
        of: seen,
        place: place_of(seen, element.fixed),
    })
}

/// `&` of a place of a number (C17 6.5.3.2p1). A variable has an address from then on.
pub(crate) fn address_rule<'a>(
    alloc: Global,
    place: Place,
    of: TypedExpr<'a>,
    taken: &mut Seq<u32>,
) -> Result<TypedExpr<'a>, TypeFault>
    ensures { (t : List ℕ) → AgreesAfter result t taken.old taken.new (rules.address_rule place (typed of.entry t)) }
{
    let Some(kind) = kind_of(of.of) else {
        return no_place(place, of);
    };
    let Some(fixed) = of.place else {
        return no_place(place, of);
    };
    note_variable(of.tree.get(), taken)?;
    let element = ElementView {
        kind,
        dims: &[],
        each: 1,
        fixed,
    };
    let node = at(place, told_pointer(element)?);
    let tree = Box::new(alloc, TExpr::Address { node, of: of.tree })?;
    Ok(TypedExpr {
        tree,
        of: TypeView::Pointer(element),
        place: None,
    })
}

/// The operand is no place.
fn no_place<'a>(place: Place, of: TypedExpr<'_>) -> Result<TypedExpr<'a>, TypeFault>
    ensures { result ≡ Err (fault.NotPlace place) }
{
    drop(of);
    Err(TypeFault::NotPlace(place))
}

/// Puts the variable that an expression is, if it is one, behind the others.
fn note_variable(e: &TExpr, taken: &mut Seq<u32>) -> Result<(), NoMemory>
    ensures { OnOk result (taken.new ≡ taken.old ++ rules.variable_step (out-TExpr e.now)) }
{
    match e {
        TExpr::Variable { variable, .. } => taken.push(*variable),
        _ => Ok(()),
    }
}
