//! The code of a function (C17 6.9.1).
ghost use Rattle.std.specs.Prelude.{◌≡◌};
ghost use Rattle.k_lower_code.specs.Functions.{function as function_meant, serves};
ghost use Rattle.k_lower_expressions.specs.Arounds.{inside_of, program_of};
ghost use Rattle.k_lower_expressions.specs.Emits.{Emits};
ghost use Rattle.k_lower_extents.specs.Extents.{AreAllExtents};
ghost use Rattle.k_lower_parts.specs.Parts.{outside_loops, with_objects};
ghost use Rattle.k_lower_statements.specs.Sites.{at_site};

use k_code::Instr;
use k_lower_bodies::statements;
use k_lower_expressions::{Around, above};
use k_lower_extents::Extent;
use k_lower_parts::{end_function, serve};
use k_lower_statements::{Site, temporary};
use k_num::NoMemory;
use k_types_meaning::TFunc;

/// Emits what the parameters of a function begin with that are memory; `r` is its first temporary. How many objects of the call are live
/// behind it is answered.
fn serve_all(f: &TFunc, r: u32, around: &Around<'_>, out: &mut Vec<Instr>) -> Result<u32, NoMemory>
    ensures { Emits result (with_objects 0 (serves (program_of around.now) r f.now.close 0 f.now.params around.now.variables.now)) out.old.items out.new.items }
{
    let mut left = f.params;
    let mut number = 0;
    let mut objects = 0;
    let variables = around.variables;
    for variable in variables {
        if left == 0 {
            return Ok(objects);
        }
        objects = serve(variable, number, objects, r, around, out)?;
        number = above(number, 1)?;
        left -= 1;
    }
    Ok(objects)
}

/// Emits the code of a function: its parameters that are memory, its statements, and its end.
pub(crate) fn emit_function(
    f: &TFunc,
    table: &[Option<Extent>],
    around: &Around<'_>,
    out: &mut Vec<Instr>,
) -> Result<(), NoMemory>
    requires known { AreAllExtents table.now (inside_of around.now) f.now.body }
    requires variables { around.now.variables.now ≡ f.now.variables }
    ensures { Emits result (at_site (outside_loops 0) (function_meant (program_of around.now) around.now.function f.now)) out.old.items out.new.items }
{
    let r = temporary(around)?;
    let objects = serve_all(f, r, around, out)?;
    let site = Site {
        objects,
        breaks: 0,
        continues: 0,
    };
    statements(&f.body, f.close, table, site, around, out)?;
    end_function(f.result, f.close, around, out)
}
