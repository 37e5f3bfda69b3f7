//! How large the tree of an entry is, and whether its numbers keep within the rules.
ghost use Rattle.std.specs.Prelude.{◌≡◌, ◌+◌, ◌*◌, ◌≤◌, length};
ghost use Rattle.k_dict_entries.specs.Entries.{NameBelow};
ghost use Rattle.k_dict_saved.specs.Extents.{capped, no_sums};
ghost use Rattle.k_dict_saved.specs.Extents as spec;

use k_dict_entries::{Entry, Run};

/// The levels and the instances of a tree.
#[derive(Clone, Copy, Debug, PartialEq, Eq)]
pub struct Extent {
    pub levels: u64,
    pub instances: u64,
}

/// What the children of an entry have together: sums that stop at the greatest number.
#[derive(Clone, Copy, Debug, PartialEq, Eq)]
pub struct Sums {
    pub works: u64,
    pub paths: u64,
    pub longest: u64,
    pub levels: u64,
    pub instances: u64,
}

/// A sum with so many times a number more.
fn add_times(sum: u64, count: u64, each: u64) -> u64
    ensures { result ≡ capped (sum + count * each) }
{
    match count.checked_mul(each) {
        None => u64::MAX,
        Some(product) => sum.saturating_add(product),
    }
}

/// The sums with the children of one more run.
fn add_run(sums: Sums, run: Run, entry: &Entry, extent: Extent) -> Sums
    ensures { result ≡ spec.with_run sums run entry.now extent }
{
    Sums {
        works: add_times(sums.works, run.count, entry.work),
        paths: add_times(sums.paths, run.count, entry.path),
        longest: sums.longest.max(entry.path),
        levels: sums.levels.max(extent.levels),
        instances: add_times(sums.instances, run.count, extent.instances),
    }
}

/// What the children of these runs have together.
pub fn sums_of(entries: &[Entry], extents: &[Extent], runs: &[Run]) -> Sums
    requires below { NameBelow (length entries.now) runs.now }
    requires each { length extents.now ≡ length entries.now }
    ensures { result ≡ spec.sums_from entries.now extents.now no_sums runs.now }
{
    let mut sums = Sums {
        works: 0,
        paths: 0,
        longest: 0,
        levels: 0,
        instances: 0,
    };
    let mut rest = runs;
    while let Some((run, later)) = rest.split_first() {
        let number = run.entry as usize;
        sums = add_run(sums, *run, &entries[number], extents[number]);
        rest = later;
    }
    sums
}

/// Whether the numbers of an entry keep within the rules, where its children have these together.
pub(crate) fn is_within(entry: &Entry, sums: Sums) -> bool
    ensures { result ≡ spec.is_within entry.now sums }
{
    entry.work <= 17_592_186_044_416
        && sums.works <= entry.work
        && entry.path <= entry.work
        && sums.longest <= entry.path
        && entry.path.saturating_sub(sums.paths) <= entry.work - sums.works
        && sums.levels < 32
        && sums.instances < 576_460_752_303_423_488
}

/// The extent of the tree whose children have these together.
pub(crate) fn extent_over(sums: Sums) -> Extent
    requires levels { sums.levels ≤ 31 }
    requires instances { sums.instances ≤ 576460752303423487 }
    ensures { result ≡ spec.extent_over sums }
{
    Extent {
        levels: 1 + sums.levels,
        instances: 1 + sums.instances,
    }
}
