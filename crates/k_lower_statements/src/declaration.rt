//! Declarations, and how a variable begins (C17 6.7, 6.7.9).
ghost use Rattle.std.specs.Prelude.{◌≡◌, true, slice_get, IfOk};
ghost use Rattle.k_evaluation.specs.Declarations.{elements_of as elements_of_meant};
ghost use Rattle.k_lower_code.specs.Declarations.{begins_object, begins_register, declares, declares_all, drops, initialises, makes_variable, starts_with, stores_at, stores_item, stores_items, temporary as temporary_meant};
ghost use Rattle.k_lower_expressions.specs.Arounds.{designates, inside_of};
ghost use Rattle.k_lower_expressions.specs.Emits.{Emits};
ghost use Rattle.k_lower_statements.specs.Sites.{fills, objects_at, site_of};

use crate::site::Site;
use k_code::{Do, Home, Instr};
use k_lower_expressions::{Around, Designated, above, does, sets, value, write};
use k_num::{NoMemory, Place, Seq};
use k_typed_parts::values_of;
use k_types_meaning::{TDeclarator, TExpr, TFirst, TInit, TItem};

/// The first temporary of a function: it stands behind its variables.
pub fn temporary(around: &Around<'_>) -> Result<u32, NoMemory>
    ensures { IfOk result (λ r. r ≡ temporary_meant (inside_of around.now)) }
{
    match u32::try_from(around.variables.len()) {
        Ok(register) => Ok(register),
        Err(_) => Err(NoMemory),
    }
}

/// An expression whose value is not used.
pub fn drop_value(e: &TExpr, around: &Around<'_>, out: &mut Vec<Instr>) -> Result<(), NoMemory>
    ensures { Emits result (drops (inside_of around.now) e.now) out.old.items out.new.items }
{
    let r = temporary(around)?;
    value(e, false, r, around, out)?;
    Ok(())
}

/// A register is initialised at its declarator.
fn initialise(
    d: &TDeclarator,
    e: &TExpr,
    target: Designated,
    around: &Around<'_>,
    out: &mut Vec<Instr>,
) -> Result<(), NoMemory>
    ensures { Emits result (initialises (inside_of around.now) d.now e.now (designates target)) out.old.items out.new.items }
{
    let r = temporary(around)?;
    let a = value(e, true, r, around, out)?;
    write(around, d.place, false, r, target, a, out)?;
    Ok(())
}

/// A register begins unset, or by a move.
fn begin_register(
    d: &TDeclarator,
    around: &Around<'_>,
    out: &mut Vec<Instr>,
) -> Result<(), NoMemory>
    ensures { Emits result (begins_register (inside_of around.now) d.now d.now.init) out.old.items out.new.items }
{
    match &d.init {
        TInit::Nothing => {
            let act = Do::Forget {
                register: d.variable,
            };
            does(around, d.place, act, out)
        }
        TInit::Value(e) => initialise(d, e, Designated::InRegister(d.variable, false), around, out),
        TInit::Elements(_) => Ok(()),
    }
}

/// An item of braces that is no string is stored, at its own place, in an element of the call's object of this number.
fn store_item(
    item: &TItem,
    object: u32,
    around: &Around<'_>,
    out: &mut Vec<Instr>,
) -> Result<(), NoMemory>
    ensures { Emits result (stores_item (inside_of around.now) object item.now) out.old.items out.new.items }
{
    match item {
        TItem::Bytes { .. } => Ok(()),
        TItem::Value {
            place,
            element,
            value,
        } => store(value, *place, object, *element, around, out),
    }
}

/// The value of an expression is stored in an element of that object.
fn store(
    e: &TExpr,
    place: Place,
    object: u32,
    element: u32,
    around: &Around<'_>,
    out: &mut Vec<Instr>,
) -> Result<(), NoMemory>
    ensures { Emits result (stores_at (inside_of around.now) place object element e.now) out.old.items out.new.items }
{
    let r = temporary(around)?;
    let a = value(e, true, r, around, out)?;
    let next = above(r, 1)?;
    let act = Do::Address {
        home: Home::Local(object),
        offset: element,
        to: next,
    };
    let at = sets(around, place, act, next, out)?;
    does(around, place, Do::Store { at, a, to: None }, out)
}

/// The items that are no strings, in text order.
fn store_items(
    items: &Seq<TItem>,
    object: u32,
    around: &Around<'_>,
    out: &mut Vec<Instr>,
) -> Result<(), NoMemory>
    ensures { Emits result (stores_items (inside_of around.now) object items.now) out.old.items out.new.items }
{
    for item in items.as_slice() {
        store_item(item, object, around, out)?;
    }
    Ok(())
}

/// The call's object of this number begins unset, by a store, or as an array.
fn begin_object(
    d: &TDeclarator,
    object: u32,
    around: &Around<'_>,
    out: &mut Vec<Instr>,
) -> Result<(), NoMemory>
    ensures { Emits result (begins_object (inside_of around.now) d.now object d.now.init) out.old.items out.new.items }
{
    match &d.init {
        TInit::Nothing => Ok(()),
        TInit::Value(e) => store(e, d.place, object, 0, around, out),
        TInit::Elements(items) => fill(items, d.place, object, around, out),
    }
}

/// An array begins by its strings, and then by a store for each other item.
fn fill(
    items: &Seq<TItem>,
    place: Place,
    object: u32,
    around: &Around<'_>,
    out: &mut Vec<Instr>,
) -> Result<(), NoMemory>
    ensures { Emits result (fills (inside_of around.now) place object items.now) out.old.items out.new.items }
{
    let values = values_of(around.alloc, items)?;
    let act = Do::Fill {
        local: object,
        values,
    };
    does(around, place, act, out)?;
    store_items(items, object, around, out)
}

/// A variable has the call's next object, of which this is the number; it holds its address from now on.
fn make_variable(
    d: &TDeclarator,
    elements: u32,
    object: u32,
    around: &Around<'_>,
    out: &mut Vec<Instr>,
) -> Result<(), NoMemory>
    ensures { Emits result (makes_variable (inside_of around.now) d.now elements object) out.old.items out.new.items }
{
    does(around, d.place, Do::ObjectOpen { elements }, out)?;
    let act = Do::Address {
        home: Home::Local(object),
        offset: 0,
        to: d.variable,
    };
    does(around, d.place, act, out)?;
    begin_object(d, object, around, out)
}

/// How many elements the object of a variable has.
fn elements_of(around: &Around<'_>, variable: u32) -> u32
    ensures { result ≡ elements_of_meant (slice_get around.now.variables.now variable) }
{
    match around.variables.get(variable as usize) {
        Some(found) => found.elements,
        None => 0,
    }
}

/// A declarator. The number of the objects of the call that are live behind it is answered.
fn declare(
    d: &TDeclarator,
    site: Site,
    around: &Around<'_>,
    out: &mut Vec<Instr>,
) -> Result<u32, NoMemory>
    ensures { Emits result (objects_at (site_of site) (declares (inside_of around.now) d.now)) out.old.items out.new.items }
{
    let elements = elements_of(around, d.variable);
    if elements == 0 {
        begin_register(d, around, out)?;
        return Ok(site.objects);
    }
    make_variable(d, elements, site.objects, around, out)?;
    above(site.objects, 1)
}

/// The declarators of a declaration, in their order. The number of the objects of the call that are live behind them is answered.
pub fn declare_all(
    list: &Seq<TDeclarator>,
    site: Site,
    around: &Around<'_>,
    out: &mut Vec<Instr>,
) -> Result<u32, NoMemory>
    ensures { (place : Place) → Emits result (objects_at (site_of site) (declares_all (inside_of around.now) place list.now)) out.old.items out.new.items }
{
    let mut here = site;
    for d in list.as_slice() {
        here.objects = declare(d, here, around, out)?;
    }
    Ok(here.objects)
}

/// The first part of a `for`. The number of the objects of the call that are live behind it is answered.
pub fn start(
    first: &TFirst,
    site: Site,
    around: &Around<'_>,
    out: &mut Vec<Instr>,
) -> Result<u32, NoMemory>
    ensures { (place : Place) → Emits result (objects_at (site_of site) (starts_with (inside_of around.now) place first.now)) out.old.items out.new.items }
{
    match first {
        TFirst::Nothing => Ok(site.objects),
        TFirst::Value(e) => {
            drop_value(e, around, out)?;
            Ok(site.objects)
        }
        TFirst::Declare(list) => declare_all(list, site, around, out),
    }
}
