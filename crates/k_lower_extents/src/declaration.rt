//! The extents of declarations (C17 6.7).
ghost use Rattle.std.specs.Prelude.{◌≡◌, ◌+◌, IfOk, slice_get};
ghost use Rattle.k_evaluation.specs.Declarations.{elements_of as elements_meant};
ghost use Rattle.k_lower_extents.specs.StatementSums.{all_declared as all_declared_meant, declared as declared_meant, declared_by as declared_by_meant, item_size as item_meant, items_size as items_meant, object_size as object_meant, register_size as register_meant, started as started_meant};

use crate::expression::extent;
use crate::extent::{Extent, behind, no_jumps, of_size};
use crate::sums::sum;
use k_num::{NoMemory, Seq};
use k_types_meaning::{TDeclarator, TFirst, TInit, TItem, TVariable};

/// How many elements the object of a variable has.
fn elements_of(variables: &[TVariable], number: u32) -> u32
    ensures { result ≡ elements_meant (slice_get variables.now number) }
{
    match variables.get(number as usize) {
        None => 0,
        Some(variable) => variable.elements,
    }
}

/// The size of the declarator of a register.
fn register_size(init: &TInit, variables: &[TVariable]) -> Result<u32, NoMemory>
    ensures { IfOk result (λ n. n ≡ register_meant variables.now init.now) }
{
    match init {
        TInit::Nothing => Ok(1),
        TInit::Value(value) => {
            let e = extent(value, variables)?;
            sum(e.used, 1)
        }
        TInit::Elements(_) => Ok(0),
    }
}

/// The size of an item of braces: its value, its address and a store.
fn item_size(item: &TItem, variables: &[TVariable]) -> Result<u32, NoMemory>
    ensures { IfOk result (λ n. n ≡ item_meant variables.now item.now) }
{
    match item {
        TItem::Bytes { .. } => Ok(0),
        TItem::Value { value, .. } => {
            let e = extent(value, variables)?;
            sum(e.used, 2)
        }
    }
}

/// The size of the items of braces.
fn items_size(items: &Seq<TItem>, variables: &[TVariable]) -> Result<u32, NoMemory>
    ensures { IfOk result (λ n. n ≡ items_meant variables.now items.now) }
{
    let mut size = 0;
    for item in items.as_slice() {
        let more = item_size(item, variables)?;
        size = sum(size, more)?;
    }
    Ok(size)
}

/// The size of the declarator of what has an object, behind its object and its address.
fn object_size(init: &TInit, variables: &[TVariable]) -> Result<u32, NoMemory>
    ensures { IfOk result (λ n. n ≡ object_meant variables.now init.now) }
{
    match init {
        TInit::Nothing => Ok(0),
        TInit::Value(value) => {
            let e = extent(value, variables)?;
            sum(e.used, 2)
        }
        TInit::Elements(items) => {
            let size = items_size(items, variables)?;
            sum(size, 1)
        }
    }
}

/// A declarator, by how many elements its variable's object has: a register has none.
#[tactic(auto, using(crate::proofs::Followed::has_no_object, crate::proofs::Followed::has_object))]
fn declared_by(init: &TInit, elements: u32, variables: &[TVariable]) -> Result<Extent, NoMemory>
    ensures { IfOk result (λ x. x ≡ declared_by_meant variables.now init.now elements) }
{
    if elements == 0 {
        let size = register_size(init, variables)?;
        return Ok(of_size(size));
    }
    let value = object_size(init, variables)?;
    let size = sum(value, 2)?;
    Ok(Extent {
        size,
        jumps: no_jumps(),
        opens: 1,
    })
}

/// A declarator.
fn declared(declarator: &TDeclarator, variables: &[TVariable]) -> Result<Extent, NoMemory>
    ensures { IfOk result (λ x. x ≡ declared_meant variables.now declarator.now) }
{
    declared_by(
        &declarator.init,
        elements_of(variables, declarator.variable),
        variables,
    )
}

/// The declarators of a declaration, in their order.
#[tactic(auto, using(crate::proofs::Followed::behind_again, crate::proofs::Followed::behind_nothing, crate::proofs::Followed::nothing_behind))]
pub(crate) fn all_declared(
    list: &Seq<TDeclarator>,
    variables: &[TVariable],
) -> Result<Extent, NoMemory>
    ensures { IfOk result (λ x. x ≡ all_declared_meant variables.now list.now) }
{
    let mut all = of_size(0);
    for declarator in list.as_slice() {
        let one = declared(declarator, variables)?;
        all = behind(all, one)?;
    }
    Ok(all)
}

/// The first part of a `for`.
pub(crate) fn started(first: &TFirst, variables: &[TVariable]) -> Result<Extent, NoMemory>
    ensures { IfOk result (λ x. x ≡ started_meant variables.now first.now) }
{
    match first {
        TFirst::Nothing => Ok(of_size(0)),
        TFirst::Value(value) => {
            let e = extent(value, variables)?;
            Ok(of_size(e.unused))
        }
        TFirst::Declare(list) => all_declared(list, variables),
    }
}
