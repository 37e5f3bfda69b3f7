//! Constants, addresses, and the values of places (C17 6.3.2.1, 6.5.1, 6.5.2.1).
ghost use Rattle.std.specs.Prelude.{◌≡◌, IfOk};
ghost use Rattle.k_evaluation.specs.Places.{is_broken as is_broken_meant, is_register as is_register_meant, string_number as string_number_meant};
ghost use Rattle.k_lower_code.specs.Lowered.{InMemory as in_memory, loads, value_at as value_at_meant, value_in_memory as value_in_memory_meant};
ghost use Rattle.k_lower_code.specs.Pieces.{◌>>>◌, only};
ghost use Rattle.k_lower_code.specs.Places.{address_at as address_at_meant, address_of as address_of_meant, element_at as element_at_meant, offset as offset_meant, string_value as string_value_meant, variable_place as variable_place_meant};
ghost use Rattle.k_lower_expressions.specs.Arounds.{designates, program_of};
ghost use Rattle.k_lower_expressions.specs.Emits.{Emits, EmitsPlace};

use crate::around::Around;
use crate::designated::Designated;
use crate::instructions::sets;
use k_code::{Arg, Do, Home, Instr};
use k_num::{NoMemory, Place};
use k_typed_parts::flag;
use k_types_meaning::{Node, TType};

/// The number of the object of a string: strings are made behind the file objects.
pub fn string_number(around: &Around<'_>, string: u32) -> Result<u32, NoMemory>
    ensures { IfOk result (λ number. number ≡ string_number_meant (program_of around.now) string) }
{
    let objects = around.unit.objects.len() as u64;
    let Some(number) = objects.checked_add(u64::from(string)) else {
        return Err(NoMemory);
    };
    match u32::try_from(number) {
        Ok(number) => Ok(number),
        Err(_) => Err(NoMemory),
    }
}

/// The address of the first element of the program's object of this number.
fn address_of(
    around: &Around<'_>,
    place: Place,
    object: u32,
    r: u32,
    out: &mut Vec<Instr>,
) -> Result<Arg, NoMemory>
    ensures { Emits result (address_of_meant (program_of around.now) place object r) out.old.items out.new.items }
{
    let act = Do::Address {
        home: Home::File(object),
        offset: 0,
        to: r,
    };
    sets(around, place, act, r, out)
}

/// The address of a string, where it is used.
pub fn string_value(
    around: &Around<'_>,
    place: Place,
    string: u32,
    used: bool,
    r: u32,
    out: &mut Vec<Instr>,
) -> Result<Arg, NoMemory>
    ensures { Emits result (string_value_meant (program_of around.now) place (string_number_meant (program_of around.now) string) used r) out.old.items out.new.items }
{
    if !used {
        return Ok(Arg::Number(0));
    }
    let object = string_number(around, string)?;
    address_of(around, place, object, r, out)
}

/// A file object as a place.
pub fn object_place(
    around: &Around<'_>,
    place: Place,
    object: u32,
    r: u32,
    out: &mut Vec<Instr>,
) -> Result<Designated, NoMemory>
    ensures { EmitsPlace result (address_of_meant (program_of around.now) place object r >>> λ address. only (in_memory address)) out.old.items out.new.items }
{
    let address = address_of(around, place, object, r, out)?;
    Ok(Designated::InMemory(address))
}

/// Whether the variable of this number is a register.
fn is_register(around: &Around<'_>, variable: u32) -> bool
    ensures { result ≡ is_register_meant around.now.variables.now variable }
{
    match around.variables.get(variable as usize) {
        Some(found) => found.elements == 0,
        None => true,
    }
}

/// A variable as a place: one that is memory has its register too, which holds its object's address.
pub fn variable_place(around: &Around<'_>, node: &Node, variable: u32) -> Designated
    ensures { designates result ≡ variable_place_meant (program_of around.now) node.now variable (is_register_meant around.now.variables.now variable) }
{
    if is_register(around, variable) {
        Designated::InRegister(variable, flag(around.marks.broken.as_slice(), node.number))
    } else {
        Designated::InMemory(Arg::Reg(variable, false))
    }
}

/// The address of an element, by a pointer and a number.
pub fn offset(
    around: &Around<'_>,
    place: Place,
    minus: bool,
    scale: u32,
    r: u32,
    pointer: Arg,
    by: Arg,
    out: &mut Vec<Instr>,
) -> Result<Arg, NoMemory>
    ensures { Emits result (offset_meant (program_of around.now) place minus scale r pointer by) out.old.items out.new.items }
{
    let act = Do::Offset {
        minus,
        scale,
        at: pointer,
        by,
        to: r,
    };
    sets(around, place, act, r, out)
}

/// The element behind a pointer, as a place.
pub fn element_at(
    around: &Around<'_>,
    place: Place,
    scale: u32,
    r: u32,
    pointer: Arg,
    by: Arg,
    out: &mut Vec<Instr>,
) -> Result<Designated, NoMemory>
    ensures { EmitsPlace result (element_at_meant (program_of around.now) place scale r pointer by) out.old.items out.new.items }
{
    let address = offset(around, place, false, scale, r, pointer, by, out)?;
    Ok(Designated::InMemory(address))
}

/// The address that a place has.
pub fn address_at(target: Designated) -> Arg
    ensures { result ≡ address_at_meant (designates target) }
{
    match target {
        Designated::InRegister(_, _) => Arg::Number(0),
        Designated::InMemory(address) => address,
    }
}

/// The value of a place, where it is used: a register is read by the operation that uses it.
pub fn value_at(
    around: &Around<'_>,
    node: &Node,
    used: bool,
    r: u32,
    target: Designated,
    out: &mut Vec<Instr>,
) -> Result<Arg, NoMemory>
    ensures { Emits result (value_at_meant (program_of around.now) node.now used r (designates target)) out.old.items out.new.items }
{
    match target {
        Designated::InRegister(number, broken) => Ok(Arg::Reg(number, broken)),
        Designated::InMemory(address) => value_in_memory(around, node, used, r, address, out),
    }
}

/// The value of what stands in memory, by its type.
fn value_in_memory(
    around: &Around<'_>,
    node: &Node,
    used: bool,
    r: u32,
    address: Arg,
    out: &mut Vec<Instr>,
) -> Result<Arg, NoMemory>
    ensures { Emits result (value_in_memory_meant (program_of around.now) node.now.place node.now.of used r address) out.old.items out.new.items }
{
    match node.of {
        TType::Void => Ok(Arg::Number(0)),
        TType::Number(_) => load(around, node.place, used, r, address, out),
        TType::Pointer(_) => Ok(address),
    }
}

/// An element is loaded, where its value is used.
fn load(
    around: &Around<'_>,
    place: Place,
    used: bool,
    r: u32,
    address: Arg,
    out: &mut Vec<Instr>,
) -> Result<Arg, NoMemory>
    ensures { Emits result (loads (program_of around.now) place used r address) out.old.items out.new.items }
{
    if !used {
        return Ok(Arg::Number(0));
    }
    sets(around, place, Do::Load { at: address, to: r }, r, out)
}
