//! What instances come to together.
ghost use Rattle.std.specs.Prelude.{◌≡◌, ◌+◌, ◌-◌, ◌*◌, ◌≤◌, ◌<◌, ◌^◌, length};
ghost use Rattle.k_dict_entries.specs.Entries.{AreInterned, AreRuns};
ghost use Rattle.k_selfpar.specs.Counts.{weighed};
ghost use Rattle.k_selfpar.specs.Items.{AreItems, sums_with, totals};
ghost use Rattle.k_selfpar.specs.Sums.{AreSmall, HasChildren, HaveChildren, own_of, path_at, serial_in, work_at};

use crate::item::Item;
use k_dict_entries::{Dict, Run};

/// What instances come to together.
#[derive(Clone, Copy, Debug)]
pub(crate) struct Sums {
    pub instances: u64,
    pub work: u64,
    pub path: u64,
    /// The time that they would take with their children one behind the other.
    pub serial: u64,
}

/// What the children of an instance come to together.
#[derive(Clone, Copy, Debug)]
struct Children {
    paths: u64,
    works: u64,
}

/// The paths and the works of children together.
fn sums_of_children(dict: &Dict, runs: &[Run]) -> Children
    requires runs { AreRuns 0 (length dict.now) runs.now }
    requires paths { weighed (path_at dict.now) runs.now < 2 ^ 62 }
    requires works { weighed (work_at dict.now) runs.now < 2 ^ 62 }
    requires interned { AreInterned dict.now }
    ensures paths { result.paths ≡ weighed (path_at dict.now) runs.now }
    ensures works { result.works ≡ weighed (work_at dict.now) runs.now }
{
    let mut children = Children { paths: 0, works: 0 };
    let mut rest = runs;
    while let Some((run, later)) = rest.split_first() {
        let child = dict.entry(run.entry);
        children.paths += run.count * child.path;
        children.works += run.count * child.work;
        rest = later;
    }
    children
}

/// The time that an instance of an entry would take with its children one behind the other.
fn serial(dict: &Dict, number: u32) -> u64
    requires number { number < length dict.now }
    requires interned { AreInterned dict.now }
    requires children { HasChildren dict.now number }
    ensures { result ≡ own_of serial_in dict.now number }
{
    let entry = dict.entry(number);
    let children = sums_of_children(dict, entry.runs.as_slice());
    children.paths + (entry.work - children.works)
}

/// The sums with the instances of one more item.
fn with_item(sums: Sums, dict: &Dict, item: Item) -> Sums
    requires number { item.run.entry < length dict.now }
    requires interned { AreInterned dict.now }
    requires small { AreSmall (sums_with dict.now item sums) }
    requires children { HasChildren dict.now item.run.entry }
    ensures { result ≡ sums_with dict.now item sums }
{
    let entry = dict.entry(item.run.entry);
    let count = item.run.count;
    Sums {
        instances: sums.instances + count,
        work: sums.work + count * entry.work,
        path: sums.path + count * entry.path,
        serial: sums.serial + count * serial(dict, item.run.entry),
    }
}

/// What the instances of items come to together.
pub(crate) fn sums_of(dict: &Dict, items: &[Item]) -> Sums
    requires items { AreItems dict.now items.now }
    requires interned { AreInterned dict.now }
    requires small { AreSmall (totals dict.now items.now) }
    requires children { HaveChildren dict.now }
    ensures { result ≡ totals dict.now items.now }
{
    let mut sums = Sums {
        instances: 0,
        work: 0,
        path: 0,
        serial: 0,
    };
    let mut rest = items;
    while let Some((item, later)) = rest.split_first() {
        sums = with_item(sums, dict, *item);
        rest = later;
    }
    sums
}
