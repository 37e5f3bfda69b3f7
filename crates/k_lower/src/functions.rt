//! The functions of a program, one behind the other.
ghost use Rattle.std.specs.Prelude.{◌≡◌, ◌≤◌, [], ◌∷◌, ◌++◌, drop, length, OnOk};
ghost use Rattle.k_lower_code.specs.Functions.{function, inside};
ghost use Rattle.k_lower_code.specs.Programs.{code_func as func_meant, code_funcs, functions_code};
ghost use Rattle.k_lower_expressions.specs.Emits.{Emits};
ghost use Rattle.k_lower_extents.specs.Extents.{AreAllExtents};
ghost use Rattle.k_lower_parts.specs.Parts.{outside_loops};
ghost use Rattle.k_lower_statements.specs.Sites.{at_site};
ghost use Rattle.k_lower.specs.Sources.{HasStatements, program_of};

use crate::function::emit_function;
use crate::source::Source;
use k_code::{CodeFunc, Instr};
use k_lower_expressions::{Around, above, next_number};
use k_lower_parts::code_func;
use k_num::NoMemory;
use k_types_meaning::TFunc;

/// Emits the code of the function of this number.
fn emit(number: u32, f: &TFunc, source: &Source<'_>, out: &mut Vec<Instr>) -> Result<(), NoMemory>
    requires { AreAllExtents source.now.table.now (inside (program_of source.now) number f.now) f.now.body }
    ensures { Emits result (at_site (outside_loops 0) (function (program_of source.now) number f.now)) out.old.items out.new.items }
{
    let variables = f.variables.as_slice();
    let around = Around {
        unit: source.unit,
        marks: source.marks,
        latencies: source.latencies,
        function: number,
        variables,
        alloc: source.alloc,
    };
    emit_function(f, source.table, &around, out)
}

/// The instructions from this number on.
#[tactic(auto, using(crate::proofs::Listed::all_from))]
fn from(entry: u32, instrs: &[Instr]) -> &[Instr]
    requires { entry ≤ length instrs.now }
    ensures { result.now ≡ drop entry instrs.now }
{
    &instrs[entry as usize..]
}

/// Emits the code of the function of this number, and adds the function.
fn push_function(
    number: u32,
    f: &TFunc,
    source: &Source<'_>,
    funcs: &mut Vec<CodeFunc>,
    out: &mut Vec<Instr>,
) -> Result<(), NoMemory>
    requires { AreAllExtents source.now.table.now (inside (program_of source.now) number f.now) f.now.body }
    ensures code { Emits result (at_site (outside_loops 0) (function (program_of source.now) number f.now)) out.old.items out.new.items }
    ensures func { OnOk result (funcs.new.items ≡ funcs.old.items ++ func_meant (program_of source.now) number f.now (length out.old.items) ∷ []) }
{
    let entry = next_number(out)?;
    emit(number, f, source, out)?;
    let instrs = from(entry, out.as_slice());
    let func = code_func(number, f, entry, instrs)?;
    funcs.push(func)?;
    Ok(())
}

/// Emits the code of all functions, and adds them.
pub(crate) fn push_functions(
    source: &Source<'_>,
    funcs: &mut Vec<CodeFunc>,
    out: &mut Vec<Instr>,
) -> Result<(), NoMemory>
    requires { HasStatements (program_of source.now) source.now.table.now }
    ensures funcs { OnOk result (funcs.new.items ≡ funcs.old.items ++ code_funcs (program_of source.now) 0 (length out.old.items) source.now.unit.now.functions) }
    ensures code { OnOk result (out.new.items ≡ out.old.items ++ functions_code (program_of source.now) 0 (length out.old.items) source.now.unit.now.functions) }
{
    let mut number = 0;
    for f in source.unit.functions.as_slice() {
        push_function(number, f, source, funcs, out)?;
        number = above(number, 1)?;
    }
    Ok(())
}
