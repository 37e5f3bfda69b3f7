//! How many instances the runs of a sum have together.
ghost use Rattle.std.specs.Prelude.{◌≡◌, ◌+◌, ◌*◌, length, IfOk};
ghost use Rattle.k_dict_entries.specs.Entries.{NameBelow, NameEarlier, laid, trees_of};
ghost use Rattle.k_dict_entries.specs.Trees.{size};
ghost use Rattle.k_dict_saved.specs.Extents.{capped};
ghost use Rattle.k_sum_merge.specs.Sizes.{AreSizes, instances_in};

use k_dict_entries::{Entry, Run};
use k_num::NoMemory;
use std::alloc::Global;

/// A count with so many times a number more, or the greatest number of 64 bits where that is no less.
fn add_times(sum: u64, count: u64, each: u64) -> u64
    ensures { result ≡ capped (sum + count * each) }
{
    sum.saturating_add(count.saturating_mul(each))
}

/// How many instances children have together, where the trees of entries have so many, or the greatest number of 64 bits where they
/// have no fewer.
fn instances_of(sizes: &[u64], runs: &[Run]) -> u64
    requires { NameBelow (length sizes.now) runs.now }
    ensures { result ≡ capped (instances_in sizes.now runs.now) }
{
    let mut count: u64 = 0;
    let mut rest = runs;
    while let Some((run, later)) = rest.split_first() {
        let each = sizes[run.entry as usize];
        count = add_times(count, run.count, each);
        rest = later;
    }
    count
}

/// How many instances the tree of each entry has, or the greatest number of 64 bits where it has no fewer.
fn sizes_of(alloc: Global, entries: &[Entry]) -> Result<Vec<u64>, NoMemory>
    requires { NameEarlier entries.now }
    ensures { IfOk result (λ sizes. AreSizes entries.now (length entries.now) sizes.items) }
{
    let mut sizes: Vec<u64> = Vec::new(alloc);
    for entry in entries {
        let below = instances_of(sizes.as_slice(), entry.runs.as_slice());
        sizes.push(below.saturating_add(1))?;
    }
    Ok(sizes)
}

/// How many instances the trees of runs have together, or the greatest number of 64 bits where they have no fewer.
pub(crate) fn count_instances(
    alloc: Global,
    entries: &[Entry],
    roots: &[Run],
) -> Result<u64, NoMemory>
    requires earlier { NameEarlier entries.now }
    requires below { NameBelow (length entries.now) roots.now }
    ensures { IfOk result (λ count. count ≡ capped (size (laid (trees_of entries.now) roots.now))) }
{
    let sizes = sizes_of(alloc, entries)?;
    Ok(instances_of(sizes.as_slice(), roots))
}
