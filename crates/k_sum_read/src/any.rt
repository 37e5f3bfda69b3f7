//! The file of a sum or of a saved profile, which is the sum of one run.
ghost use Rattle.std.specs.Prelude.{IfOk};
ghost use Rattle.k_sum.specs.Sums.{HasBounds};
ghost use Rattle.k_sum_read.specs.AnyFile.{ReadsAny, ReadsOne};
ghost use Rattle.k_sum_saved.specs.Merged.{IsMerged};

use crate::reading::read_sum;
use k_dict_saved::{SavedFault, read};
use k_num::NoMemory;
use k_scan::word;
use k_sum::{Sum, sum_of};
use std::alloc::Global;

/// The sum of one run, where the bytes spell a saved profile.
fn read_one(alloc: Global, bytes: &[u8]) -> Result<Sum, SavedFault>
    ensures one { ReadsOne bytes.now result }
    ensures bounds { IfOk result HasBounds }
{
    match read(alloc, bytes) {
        Err(fault) => Err(fault),
        Ok(saved) => match sum_of(alloc, saved) {
            Ok(sum) => Ok(sum),
            Err(NoMemory) => Err(SavedFault::Memory),
        },
    }
}

/// The sum that the bytes of a file spell, or that of the one run whose saved profile they spell: the first line tells which.
/// `NotSaved` has the byte at which the first wrong line starts, which is 0 where the first line is that of neither.
pub fn read_any(alloc: Global, bytes: &[u8]) -> Result<Sum, SavedFault>
    ensures sum { ReadsAny bytes.now result }
    ensures merged { IfOk result IsMerged }
    ensures bounds { IfOk result HasBounds }
{
    match word(b"kremlin sum 1\n", bytes) {
        Some(_) => read_sum(alloc, bytes),
        None => read_one(alloc, bytes),
    }
}
