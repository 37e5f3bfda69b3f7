//! Numbering of declared variables and their initialisers (C17 6.7).
ghost use Rattle.std.specs.Prelude.{OnOk};
ghost use Rattle.k_types_numbers.specs.Renumbering.{NumbersDeclarator, NumbersDeclared, NumbersInit, NumbersItem, NumbersItems};

use crate::counts::Counts;
use crate::expression::number_expr;
use k_num::NoMemory;
use k_types_meaning::{TDeclarator, TInit, TItem};
use std::alloc::Global;

/// Numbers declared variables in their order.
pub fn number_declared(
    list: &mut [TDeclarator],
    alloc: Global,
    counts: &mut Counts,
) -> Result<(), NoMemory>
    ensures { OnOk result (NumbersDeclared list.old list.new counts.old counts.new) }
{
    for declarator in list.iter_mut() {
        number_declarator(declarator, alloc, counts)?;
    }
    Ok(())
}

/// Numbers a declared variable.
fn number_declarator(
    declarator: &mut TDeclarator,
    alloc: Global,
    counts: &mut Counts,
) -> Result<(), NoMemory>
    ensures { OnOk result (NumbersDeclarator declarator.old declarator.new counts.old counts.new) }
{
    number_init(&mut declarator.init, alloc, counts)
}

/// Numbers an initialiser.
fn number_init(init: &mut TInit, alloc: Global, counts: &mut Counts) -> Result<(), NoMemory>
    ensures { OnOk result (NumbersInit init.old init.new counts.old counts.new) }
{
    match init {
        TInit::Nothing => Ok(()),
        TInit::Value(value) => number_expr(value, alloc, counts),
        TInit::Elements(items) => number_items(items.as_mut_slice(), alloc, counts),
    }
}

/// Numbers the items of braces in their order.
fn number_items(items: &mut [TItem], alloc: Global, counts: &mut Counts) -> Result<(), NoMemory>
    ensures { OnOk result (NumbersItems items.old items.new counts.old counts.new) }
{
    for item in items.iter_mut() {
        number_item(item, alloc, counts)?;
    }
    Ok(())
}

/// Numbers an item of braces.
fn number_item(item: &mut TItem, alloc: Global, counts: &mut Counts) -> Result<(), NoMemory>
    ensures { OnOk result (NumbersItem item.old item.new counts.old counts.new) }
{
    match item {
        TItem::Bytes { .. } => Ok(()),
        TItem::Value { value, .. } => number_expr(value, alloc, counts),
    }
}
