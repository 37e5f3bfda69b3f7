//! Instances of one entry, counted together, in order of their region.
ghost use Rattle.std.specs.Prelude.{◌≡◌, ◌≤◌, ◌<◌, ◌++◌, All, length, IfOk, OnOk};
ghost use Rattle.std.specs.List.Sorted.{IsPermutation};
ghost use Rattle.k_dict_entries.specs.Entries.{AreInterned};
ghost use Rattle.k_selfpar.specs.Items.{BeginsElsewhere, Rise, item_of, occurring};

use k_dict_entries::{Dict, Run};
use k_num::NoMemory;
use std::alloc::Global;

/// Instances of one entry, with its region.
#[derive(Clone, Copy, Debug)]
pub struct Item {
    pub region: u32,
    pub run: Run,
}

/// The entries that occur, by their numbers, where each occurs as often as it is counted.
pub fn occurring_entries(alloc: Global, dict: &Dict, counts: &[u64]) -> Result<Vec<Item>, NoMemory>
    requires within { length counts.now ≤ length dict.now }
    requires interned { AreInterned dict.now }
    ensures { IfOk result (λ items. items.items ≡ occurring dict.now 0 counts.now) }
{
    let mut items = Vec::new(alloc);
    let mut rest = counts;
    while let Some((count, later)) = rest.split_first() {
        let number = (counts.len() - rest.len()) as u32;
        if *count > 0 {
            items.push(item_of(dict, number, *count))?;
        }
        rest = later;
    }
    Ok(items)
}

/// So many instances of an entry.
pub(crate) fn item_of(dict: &Dict, entry: u32, count: u64) -> Item
    requires { entry < length dict.now }
    ensures { result ≡ item_of dict.now entry count }
{
    Item {
        region: dict.entry(entry).region,
        run: Run { entry, count },
    }
}

/// Brings items in order of their regions.
pub fn sort_by_region(items: &mut Vec<Item>) -> Result<(), NoMemory>
    ensures permutation { IsPermutation items.old.items items.new.items }
    ensures sorted { OnOk result (Rise 0 items.new.items) }
{
    items.sort_by_key(|item| item.region)?;
    Ok(())
}

/// The items of a region at the front, and the others.
pub(crate) fn split_region(items: &[Item], region: u32) -> (&[Item], &[Item])
    ensures whole { items.now ≡ result.0.now ++ result.1.now }
    ensures same { All (λ i. i.region ≡ region) result.0.now }
    ensures other { BeginsElsewhere region result.1.now }
{
    let size = items
        .iter()
        .take_while(|item| item.region == region)
        .count();
    items.split_at(size)
}
