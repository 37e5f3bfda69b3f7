//! How often each entry of a dictionary occurs in the tree of one of them.
ghost use Rattle.std.specs.Prelude.{◌≡◌, ◌+◌, ◌≤◌, ◌<◌, ◌^◌, length, replicate, IfOk};
ghost use Rattle.k_dict_entries.specs.Entries.{AreInterned};
ghost use Rattle.k_selfpar.specs.Counts.{AreCounts, CanCount, with_children};
ghost use Rattle.k_selfpar.specs.Sums.{all_of, one};

use k_dict_entries::{Dict, Run};
use k_num::NoMemory;
use std::alloc::Global;

/// Counts the children of so many instances that have these runs.
pub fn count_children(counts: &mut [u64], runs: &[Run], count: u64)
    requires { CanCount count counts.old runs.now }
    ensures { counts.new ≡ with_children count counts.old runs.now }
{
    let mut rest = runs;
    while let Some((run, later)) = rest.split_first() {
        counts[run.entry as usize] += count * run.count;
        rest = later;
    }
}

/// Counts the instances of the tree of `root`, from its entry down.
fn count_all(counts: &mut [u64], dict: &Dict, root: u32)
    requires root { root < length dict.now }
    requires zero { counts.old ≡ replicate (root + 1) 0 }
    requires interned { AreInterned dict.now }
    requires few { all_of one dict.now root ≤ 2 ^ 59 }
    ensures { AreCounts dict.now root counts.new }
{
    counts[root as usize] = 1;
    let mut number = root + 1;
    while number > 0 {
        number -= 1;
        let count = counts[number as usize];
        count_children(counts, dict.entry(number).runs.as_slice(), count);
    }
}

/// How often each entry up to the root's occurs in the root's tree.
pub(crate) fn count_instances(alloc: Global, dict: &Dict, root: u32) -> Result<Vec<u64>, NoMemory>
    requires root { root < length dict.now }
    requires interned { AreInterned dict.now }
    requires few { all_of one dict.now root ≤ 2 ^ 59 }
    ensures { IfOk result (λ counts. AreCounts dict.now root counts.items) }
{
    let mut counts: Vec<u64> = vec![in alloc; 0; root as usize + 1]?;
    count_all(counts.as_mut_slice(), dict, root);
    Ok(counts)
}
