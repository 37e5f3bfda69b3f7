//! The listing of the run of a typed source.
ghost use Rattle.std.specs.Prelude.{◌≡◌, IfOk};
ghost use Rattle.k_evaluation.specs.Runs.{listing_of, run as run_meant};
ghost use Rattle.k_plain.specs.Programs.{IsOfSource};

use crate::running::listing_of_code;
use k_ending::Listing;
use k_lower::lower;
use k_marks_meaning::Marks;
use k_num::NoMemory;
use k_optab::Latencies;
use k_types_meaning::TUnit;
use std::alloc::Global;

/// The run of an accepted source with its marks, in which at most `budget` operations are made, each with the latency of its class: what
/// happens, what is written, and how it ends.
pub fn plain(
    alloc: Global,
    unit: &TUnit,
    marks: &Marks,
    latencies: &Latencies,
    input: &[u8],
    budget: u64,
) -> Result<Listing, NoMemory>
    requires { IsOfSource (record { unit = unit.now; marks = marks.now; latencies = latencies.now }) }
    ensures { IfOk result (λ listing. listing ≡ listing_of (run_meant (record { unit = unit.now; marks = marks.now; latencies = latencies.now }) input.now budget)) }
{
    let code = lower(alloc, unit, marks, latencies)?;
    listing_of_code(alloc, &code, input, budget)
}
