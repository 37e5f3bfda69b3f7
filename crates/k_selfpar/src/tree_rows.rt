//! The rows of a tree that a dictionary stands for: entries are multiplied by how often they occur, and never expanded.
ghost use Rattle.std.specs.Prelude.{◌≡◌, ◌≤◌, ◌<◌, ◌^◌, length, IfOk};
ghost use Rattle.k_dict_entries.specs.Entries.{AreInterned, expansion};
ghost use Rattle.k_dict_entries.specs.Rules.{AreProfile};
ghost use Rattle.k_selfpar.specs.Items.{AreItems, AreItemsOf, AreRowsOf, IsRowOf, Rise, totals};
ghost use Rattle.k_selfpar.specs.Rows.{AreAtLeastOne, AreRows};
ghost use Rattle.k_selfpar.specs.Sums.{AreSmall, HaveChildren, all_of, one};

use crate::Frac;
use crate::counts::count_instances;
use crate::item::{Item, occurring_entries, sort_by_region, split_region};
use crate::row::Row;
use crate::sums::{Sums, sums_of};
use k_dict_entries::Dict;
use k_num::{NoMemory, Seq};
use std::alloc::Global;

/// The row of a region.
fn row_of(region: u32, sums: Sums) -> Row
    requires { AreSmall sums }
    ensures { IsRowOf region sums result }
{
    Row {
        region,
        instances: sums.instances,
        work: sums.work,
        path: sums.path,
        sp: Frac::ratio(sums.serial, sums.path),
    }
}

/// The rows of items that stand in order of their regions.
pub fn rows_of(alloc: Global, dict: &Dict, items: &[Item]) -> Result<Seq<Row>, NoMemory>
    requires items { AreItems dict.now items.now }
    requires sorted { Rise 0 items.now }
    requires interned { AreInterned dict.now }
    requires small { AreSmall (totals dict.now items.now) }
    requires children { HaveChildren dict.now }
    ensures { IfOk result (AreRowsOf dict.now items.now) }
{
    let mut rows = Seq::new(alloc);
    let mut rest = items;
    while let Some((first, _)) = rest.split_first() {
        let region = first.region;
        let (group, later) = split_region(rest, region);
        rows.push(row_of(region, sums_of(dict, group)))?;
        rest = later;
    }
    Ok(rows)
}

/// The entries that occur in the tree of an entry, each as often as it does, in order of their regions.
fn items_of_tree(alloc: Global, dict: &Dict, root: u32) -> Result<Vec<Item>, NoMemory>
    requires root { root < length dict.now }
    requires interned { AreInterned dict.now }
    requires few { all_of one dict.now root ≤ 2 ^ 59 }
    ensures { IfOk result (λ items. AreItemsOf dict.now root items.items) }
{
    let counts = count_instances(alloc, dict, root)?;
    let mut items = occurring_entries(alloc, dict, counts.as_slice())?;
    sort_by_region(&mut items)?;
    Ok(items)
}

/// One row for each region that has an instance in the tree that an entry stands for, in order of region number.
pub fn rows(alloc: Global, dict: &Dict, root: u32) -> Result<Seq<Row>, NoMemory>
    requires root { root < length dict.now }
    requires profile { AreProfile dict.now }
    ensures rows { IfOk result (AreRows (expansion dict.now root)) }
    ensures at_least_one { IfOk result AreAtLeastOne }
{
    let items = items_of_tree(alloc, dict, root)?;
    rows_of(alloc, dict, items.as_slice())
}
