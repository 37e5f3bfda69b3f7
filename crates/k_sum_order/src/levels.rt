//! The levels of entries: an entry has the level behind those of the entries that it names.
ghost use Rattle.std.specs.Prelude.{ℕ, ◌≡◌, ◌<◌, ◌≤◌, length, slice_index_or, IfOk};
ghost use Rattle.k_dict_entries.specs.Entries.{NameBelow, NameEarlier};
ghost use Rattle.k_sum_order.specs.Placing.{AreLevels};
ghost use Rattle.k_sum_order.specs.Placing as spec;

use k_dict_entries::{Entry, Run};
use k_num::NoMemory;
use std::alloc::Global;

/// The level behind those of the entries that runs name.
fn level_over(levels: &[u32], runs: &[Run]) -> u32
    requires below { NameBelow (length levels.now) runs.now }
    requires low { (n : ℕ) → slice_index_or levels.now n 0 ≤ n }
    requires few { length levels.now ≤ 1048576 }
    ensures { result ≡ spec.level_over levels.now runs.now }
{
    let mut level = 0;
    let mut rest = runs;
    while let Some((run, later)) = rest.split_first() {
        let next = levels[run.entry as usize] + 1;
        level = level.max(next);
        rest = later;
    }
    level
}

/// The level of each entry.
pub(crate) fn levels_of(alloc: Global, entries: &[Entry]) -> Result<Vec<u32>, NoMemory>
    requires earlier { NameEarlier entries.now }
    requires few { length entries.now ≤ 1048576 }
    ensures { IfOk result (λ levels. AreLevels entries.now levels.items) }
{
    let mut levels: Vec<u32> = Vec::new(alloc);
    for entry in entries {
        let level = level_over(levels.as_slice(), entry.runs.as_slice());
        levels.push(level)?;
    }
    Ok(levels)
}
