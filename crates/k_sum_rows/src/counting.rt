//! How often each entry of a dictionary occurs in the trees of runs.
ghost use Rattle.std.specs.Prelude.{◌≡◌, ◌≤◌, length, replicate, IfOk};
ghost use Rattle.k_dict_entries.specs.Entries.{AreInterned, AreRuns};
ghost use Rattle.k_dict_entries.specs.Trees.{size};
ghost use Rattle.k_sum_rows.specs.Runs.{AreRunCounts, run_trees};

use k_dict_entries::{Dict, Run};
use k_num::NoMemory;
use k_selfpar::count_children;
use std::alloc::Global;

/// Counts the roots, and then the children of the instances of each entry, from the last entry down.
fn count_all(counts: &mut [u64], dict: &Dict, roots: &[Run])
    requires zero { counts.old ≡ replicate (length dict.now) 0 }
    requires interned { AreInterned dict.now }
    requires roots { AreRuns 0 (length dict.now) roots.now }
    requires few { size (run_trees dict.now roots.now) ≤ 576460752303423488 }
    ensures { AreRunCounts dict.now roots.now counts.new }
{
    count_children(counts, roots, 1);
    let mut number = dict.len();
    while number > 0 {
        number -= 1;
        let count = counts[number as usize];
        count_children(counts, dict.entry(number).runs.as_slice(), count);
    }
}

/// How often each entry occurs in the trees of runs whose roots are these.
pub(crate) fn count_instances(
    alloc: Global,
    dict: &Dict,
    roots: &[Run],
) -> Result<Vec<u64>, NoMemory>
    requires interned { AreInterned dict.now }
    requires roots { AreRuns 0 (length dict.now) roots.now }
    requires few { size (run_trees dict.now roots.now) ≤ 576460752303423488 }
    ensures { IfOk result (λ counts. AreRunCounts dict.now roots.now counts.items) }
{
    let mut counts: Vec<u64> = vec![in alloc; 0; dict.len() as usize]?;
    count_all(counts.as_mut_slice(), dict, roots);
    Ok(counts)
}
