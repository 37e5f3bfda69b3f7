//! A whole program.
ghost use Rattle.std.specs.Prelude.{◌≡◌, IfOk};
ghost use Rattle.k_code.specs.Valid.{IsValid};
ghost use Rattle.k_lower_code.specs.Programs.{flattened};
ghost use Rattle.k_lower.specs.Promises.{RunsAs, WhereAccepted};
ghost use Rattle.k_regions.specs.Regions.{regions_of};

use crate::functions::push_functions;
use crate::source::Source;
use k_code::Code;
use k_lower_extents::extents_of;
use k_lower_parts::code_of;
use k_marks_meaning::Marks;
use k_num::{NoMemory, Seq};
use k_optab::Latencies;
use k_types_meaning::TUnit;
use std::alloc::Global;

/// The flat code of a typed source with these marks and latencies. Where the numbers of statements don't tell them apart, or a number in the
/// code is more than a `u32` can count, no memory is found for it.
pub fn lower(
    alloc: Global,
    unit: &TUnit,
    marks: &Marks,
    latencies: &Latencies,
) -> Result<Code, NoMemory>
    ensures text { IfOk result (λ code. code ≡ flattened (record { unit = unit.now; marks = marks.now; latencies = latencies.now })) }
    ensures valid { IfOk result (λ code. WhereAccepted (record { unit = unit.now; marks = marks.now; latencies = latencies.now }) (IsValid code)) }
    ensures regions { IfOk result (λ code. code.regions ≡ regions_of unit.now) }
    ensures runs { IfOk result (λ code. WhereAccepted (record { unit = unit.now; marks = marks.now; latencies = latencies.now }) (RunsAs (record { unit = unit.now; marks = marks.now; latencies = latencies.now }) code)) }
{
    let extents = extents_of(alloc, unit, marks)?;
    let table = extents.statements.as_slice();
    let source = Source {
        unit,
        marks,
        latencies,
        table,
        alloc,
    };
    let mut funcs = Vec::new(alloc);
    let mut instrs = Vec::new(alloc);
    push_functions(&source, &mut funcs, &mut instrs)?;
    code_of(alloc, unit, Seq::from_vec(funcs), Seq::from_vec(instrs))
}
