//! The entries of one level, in the order of their numbers.
ghost use Rattle.std.specs.Prelude.{◌≡◌, ◌≤◌, length, IfOk, OnOk};
ghost use Rattle.std.specs.List.Sorted.{IsPermutation};
ghost use Rattle.k_dict_entries.specs.Entries.{NameEarlier};
ghost use Rattle.k_dict_saved.specs.Migration.{HaveFewChildren};
ghost use Rattle.k_sum_order.specs.Placing.{AreRanked, HaveRisingKeys};

use crate::key::key;
use k_dict_entries::Entry;
use k_num::NoMemory;
use std::alloc::Global;

/// An entry by its number in the dictionary, with the numbers by which it is ordered.
#[derive(Debug, PartialEq, Eq, PartialOrd, Ord, Drop)]
pub(crate) struct Ranked {
    pub key: Vec<u64>,
    pub number: u32,
}

/// The entries of a level, where those of lower levels have these numbers.
pub(crate) fn entries_of(
    alloc: Global,
    entries: &[Entry],
    levels: &[u32],
    numbers: &[u32],
    level: u32,
) -> Result<Vec<Ranked>, NoMemory>
    requires earlier { NameEarlier entries.now }
    requires few { HaveFewChildren entries.now }
    requires short { length entries.now ≤ 1048576 }
    requires levels { length levels.now ≡ length entries.now }
    requires numbers { length numbers.now ≡ length entries.now }
    ensures { IfOk result (λ batch. AreRanked entries.now levels.now numbers.now level (length entries.now) batch.items) }
{
    let mut batch: Vec<Ranked> = Vec::new(alloc);
    for number in 0..entries.len() {
        if levels[number] == level {
            let key = key(alloc, numbers, &entries[number])?;
            let number = number as u32;
            batch.push(Ranked { key, number })?;
        }
    }
    Ok(batch)
}

/// Brings entries in order.
pub(crate) fn sort(batch: &mut Vec<Ranked>) -> Result<(), NoMemory>
    ensures permutation { IsPermutation batch.old.items batch.new.items }
    ensures sorted { OnOk result (HaveRisingKeys batch.new.items) }
{
    batch.sort()?;
    Ok(())
}
