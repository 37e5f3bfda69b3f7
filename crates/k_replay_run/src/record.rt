//! The record of a run of a typed source.
ghost use Rattle.std.specs.Prelude.{◌≡◌, IfOk};
ghost use Rattle.k_lower.specs.Promises.{WhereAccepted};
ghost use Rattle.k_lower_code.specs.Programs.{flattened};
ghost use Rattle.k_replay_code.specs.Recorded.{IsRecordOf};
ghost use Rattle.k_replay_record.specs.Records.{IsRecord};
ghost use Rattle.k_replay_run.specs.Recorded.{IsRecordOfRun};

use k_code::valid;
use k_lower::lower;
use k_marks_meaning::Marks;
use k_num::NoMemory;
use k_optab::Latencies;
use k_replay_code::record_code;
use k_replay_record::Record;
use k_types_meaning::TUnit;
use std::alloc::Global;

/// The record of the run of a typed source with its marks, on an input, in which at most `budget` operations are made. Where a source is accepted as this
/// program, the steps have the acts, the operands and the values of the operations of its run, in order, and the output and the end are the run's. Where none
/// is, they have those of the operations that the source's flat code makes, and want of memory may be answered.
pub fn record_run(
    alloc: Global,
    unit: &TUnit,
    marks: &Marks,
    latencies: &Latencies,
    input: &[u8],
    budget: u64,
) -> Result<Record, NoMemory>
    ensures flat { IfOk result (λ tape. IsRecordOf (flattened (record { unit = unit.now; marks = marks.now; latencies = latencies.now })) input.now budget tape) }
    ensures fits { IfOk result (λ tape. IsRecord tape) }
    ensures run { IfOk result (λ tape. WhereAccepted (record { unit = unit.now; marks = marks.now; latencies = latencies.now }) (IsRecordOfRun (record { unit = unit.now; marks = marks.now; latencies = latencies.now }) input.now budget tape)) }
{
    let code = lower(alloc, unit, marks, latencies)?;
    if !valid(alloc, &code)? {
        return Err(NoMemory);
    }
    record_code(alloc, &code, input, budget)
}
