//! Parameters that are memory (C17 6.9.1p10).
ghost use Rattle.k_lower_code.specs.Functions.{makes_parameter, serves_by};
ghost use Rattle.k_lower_expressions.specs.Arounds.{program_of};
ghost use Rattle.k_lower_expressions.specs.Emits.{Emits};
ghost use Rattle.k_lower_parts.specs.Parts.{with_objects};

use k_code::{Arg, Do, Home, Instr};
use k_lower_expressions::{Around, above, does, sets};
use k_num::NoMemory;
use k_types_meaning::TVariable;

/// A parameter has the call's next object, of which this is the number: the argument is stored in it, and the parameter holds its address
/// from now on. `r` is the first temporary.
fn make_parameter(
    variable: &TVariable,
    number: u32,
    object: u32,
    r: u32,
    around: &Around<'_>,
    out: &mut Vec<Instr>,
) -> Result<(), NoMemory>
    ensures { Emits result (makes_parameter (program_of around.now) r variable.now.place number variable.now.elements object) out.old.items out.new.items }
{
    let place = variable.place;
    let elements = variable.elements;
    does(around, place, Do::ObjectOpen { elements }, out)?;
    let act = Do::Address {
        home: Home::Local(object),
        offset: 0,
        to: r,
    };
    let at = sets(around, place, act, r, out)?;
    let a = Arg::Reg(number, false);
    does(around, place, Do::Store { at, a, to: None }, out)?;
    let act = Do::Address {
        home: Home::Local(object),
        offset: 0,
        to: number,
    };
    does(around, place, act, out)
}

/// Emits what the parameter of this number begins with, where so many objects of the call are live. How many are live behind it is answered.
pub fn serve(
    variable: &TVariable,
    number: u32,
    objects: u32,
    r: u32,
    around: &Around<'_>,
    out: &mut Vec<Instr>,
) -> Result<u32, NoMemory>
    ensures { Emits result (with_objects objects (serves_by (program_of around.now) r variable.now.place number variable.now.elements)) out.old.items out.new.items }
{
    if variable.elements == 0 {
        return Ok(objects);
    }
    make_parameter(variable, number, objects, r, around, out)?;
    above(objects, 1)
}
