//! The ends of functions (C17 5.1.2.2.3p1, 6.9.1p12).
ghost use Rattle.std.specs.Prelude.{◌≡◌};
ghost use Rattle.k_lower_code.specs.Functions.{at_end as at_end_meant, falls_off as falls_off_meant};
ghost use Rattle.k_lower_code.specs.Pieces.{does as does_meant};
ghost use Rattle.k_lower_expressions.specs.Arounds.{program_of};
ghost use Rattle.k_lower_expressions.specs.Emits.{Emits};

use k_code::{Do, Instr};
use k_lower_expressions::{Around, does};
use k_num::{NoMemory, Place};
use k_types_meaning::TType;

/// What stands at the end of a function with a result: main gives 0, another one traps.
fn falls_off(main: bool) -> Do
    ensures { result ≡ falls_off_meant main }
{
    if main {
        Do::Return { value: None }
    } else {
        Do::FallOff
    }
}

/// What stands at the end of the function, whose result has this type.
fn at_end(around: &Around<'_>, of: TType) -> Do
    ensures { result ≡ at_end_meant (program_of around.now) around.now.function of }
{
    match of {
        TType::Void => Do::Return { value: None },
        TType::Number(_) => falls_off(around.function == around.unit.main),
        TType::Pointer(_) => falls_off(around.function == around.unit.main),
    }
}

/// Emits what stands at the end of the function, whose result has this type.
pub fn end_function(
    of: TType,
    close: Place,
    around: &Around<'_>,
    out: &mut Vec<Instr>,
) -> Result<(), NoMemory>
    ensures { Emits result (does_meant (program_of around.now) close (at_end_meant (program_of around.now) around.now.function of)) out.old.items out.new.items }
{
    does(around, close, at_end(around, of), out)
}
