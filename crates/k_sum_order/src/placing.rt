//! Entries, added to those that are in order.
ghost use Rattle.std.specs.Prelude.{◌≡◌, ◌<◌, ◌≤◌, All, length, map, OnOk};
ghost use Rattle.k_dict_entries.specs.Entries.{AreDistinct, NameEarlier};
ghost use Rattle.k_dict_saved.specs.Migration.{HaveFewChildren};
ghost use Rattle.k_sum_order.specs.Placing.{AreLevels, OrdersLevel, placed, placed_all};

use crate::batch::{Ranked, entries_of, sort};
use k_dict_entries::{DictFault, Entry, EntryTable};
use k_num::NoMemory;
use k_sum::renumber;
use std::alloc::Global;

/// Adds an entry, and notes its number.
fn place(
    alloc: Global,
    entries: &[Entry],
    numbers: &mut [u32],
    table: &mut EntryTable,
    number: u32,
) -> Result<(), DictFault>
    requires earlier { NameEarlier entries.now }
    requires few { HaveFewChildren entries.now }
    requires count { length numbers.old ≡ length entries.now }
    requires within { number < length entries.now }
    requires distinct { AreDistinct table.old }
    ensures placed { OnOk result (record { dict = table.new; numbers = numbers.new } ≡ placed entries.now (record { dict = table.old; numbers = numbers.old }) number) }
    ensures distinct { AreDistinct table.new }
{
    let entry = &entries[number as usize];
    match renumber(alloc, numbers, entry) {
        Err(NoMemory) => Err(DictFault::Memory),
        Ok(renumbered) => {
            let found = table.intern(renumbered)?;
            numbers[number as usize] = found;
            Ok(())
        }
    }
}

/// Adds entries, and notes their numbers.
fn place_all(
    alloc: Global,
    entries: &[Entry],
    numbers: &mut [u32],
    table: &mut EntryTable,
    batch: &[Ranked],
) -> Result<(), DictFault>
    requires earlier { NameEarlier entries.now }
    requires few { HaveFewChildren entries.now }
    requires count { length numbers.old ≡ length entries.now }
    requires within { All (λ r. r.number < length entries.now) batch.now }
    requires distinct { AreDistinct table.old }
    ensures placed { OnOk result (record { dict = table.new; numbers = numbers.new } ≡ placed_all entries.now (record { dict = table.old; numbers = numbers.old }) (map (λ r. r.number) batch.now)) }
    ensures distinct { AreDistinct table.new }
{
    let mut rest = batch;
    while let Some((ranked, later)) = rest.split_first() {
        place(alloc, entries, numbers, table, ranked.number)?;
        rest = later;
    }
    Ok(())
}

/// Brings the entries of a level in order, behind those of lower levels.
pub(crate) fn order_level(
    alloc: Global,
    entries: &[Entry],
    levels: &[u32],
    level: u32,
    numbers: &mut [u32],
    table: &mut EntryTable,
) -> Result<(), DictFault>
    requires earlier { NameEarlier entries.now }
    requires few { HaveFewChildren entries.now }
    requires short { length entries.now ≤ 1048576 }
    requires levels { AreLevels entries.now levels.now }
    requires count { length numbers.old ≡ length entries.now }
    requires distinct { AreDistinct table.old }
    ensures orders { OnOk result (OrdersLevel entries.now levels.now level (record { dict = table.old; numbers = numbers.old }) (record { dict = table.new; numbers = numbers.new })) }
    ensures distinct { AreDistinct table.new }
{
    let Ok(mut batch) = entries_of(alloc, entries, levels, numbers, level) else {
        return Err(DictFault::Memory);
    };
    if let Err(NoMemory) = sort(&mut batch) {
        return Err(DictFault::Memory);
    }
    place_all(alloc, entries, numbers, table, batch.as_slice())
}
