//! The numbers with which file objects begin (C17 6.7.9p4, p10, p21).
ghost use Rattle.std.specs.Prelude.{◌≡◌, ◌+◌, ◌∷◌, ◌++◌, [], IfOk, OnOk, pos};
ghost use Rattle.std.specs.List.{flat_map};
ghost use Rattle.k_num.specs.Kind.{converted};
ghost use Rattle.k_num.specs.declared.numbers.Kind.TheVariants as kinds;
ghost use Rattle.k_types_meaning.specs.Initialisers as rules;

use crate::constants::constant;
use k_num::{Initial, Kind, NoMemory, Seq, convert};
use k_types_meaning::{TExpr, TInit, TItem};
use std::alloc::Global;

/// The numbers with which elements of a file object begin, in the order of its elements.
pub fn first_values(alloc: Global, init: &TInit) -> Result<Seq<Initial>, NoMemory>
    ensures { IfOk result (λ numbers. numbers ≡ rules.first_values init.now) }
{
    let mut numbers = Seq::new(alloc);
    match init {
        TInit::Nothing => {}
        TInit::Value(e) => numbers.push(value_for(0, e)?)?,
        TInit::Elements(items) => put_items(&mut numbers, items.as_slice())?,
    }
    Ok(numbers)
}

/// Puts the numbers that items give behind others.
fn put_items(numbers: &mut Seq<Initial>, items: &[TItem]) -> Result<(), NoMemory>
    ensures { OnOk result (numbers.new ≡ numbers.old ++ flat_map rules.item_numbers items.now) }
{
    for item in items {
        put_item(numbers, item)?;
    }
    Ok(())
}

/// Puts the numbers that an item gives behind others.
fn put_item(numbers: &mut Seq<Initial>, item: &TItem) -> Result<(), NoMemory>
    ensures { OnOk result (numbers.new ≡ numbers.old ++ rules.item_numbers item.now) }
{
    match item {
        TItem::Bytes { element, bytes } => put_bytes(numbers, *element, bytes.as_slice())?,
        TItem::Value { element, value, .. } => numbers.push(value_for(*element, value)?)?,
    }
    Ok(())
}

/// The number that an expression gives to an element.
fn value_for(element: u32, e: &TExpr) -> Result<Initial, NoMemory>
    ensures { IfOk result (λ initial. initial ≡ rules.value_for element e.now) }
{
    match constant(e)? {
        Some(number) => Ok(Initial { element, number }),
        None => Ok(Initial { element, number: 0 }),
    }
}

/// Puts the numbers that the bytes of a string give behind others, to the elements from this one on.
fn put_bytes(numbers: &mut Seq<Initial>, element: u32, bytes: &[u8]) -> Result<(), NoMemory>
    ensures { OnOk result (numbers.new ≡ numbers.old ++ rules.bytes_from element bytes.now) }
{
    let mut next = element;
    let mut rest = bytes;
    while let Some((byte, more)) = rest.split_first() {
        numbers.push(char_for(next, *byte))?;
        next = behind(next)?;
        rest = more;
    }
    Ok(())
}

/// The number that a byte of a string gives to an element.
fn char_for(element: u32, byte: u8) -> Initial
    ensures { result ≡ record { element = element; number = converted kinds.I8 (pos byte) } }
{
    Initial {
        element,
        number: convert(Kind::I8, i128::from(byte)),
    }
}

/// The element behind one.
fn behind(element: u32) -> Result<u32, NoMemory>
    ensures { IfOk result (λ next. next ≡ element + 1) }
{
    match element.checked_add(1) {
        Some(next) => Ok(next),
        None => Err(NoMemory),
    }
}
