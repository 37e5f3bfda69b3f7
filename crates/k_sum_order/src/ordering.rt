//! The entries of a sum in order.
ghost use Rattle.std.specs.Prelude.{ℕ, ◌≡◌, ◌^◌, ◌<◌, [], length, slice_index_or, IfOk, OnOk};
ghost use Rattle.k_dict_entries.specs.Entries.{AreDistinct, AreInterned, NameBelow};
ghost use Rattle.k_dict_entries.specs.Tallies.{total};
ghost use Rattle.k_dict_saved.specs.Migration.{HaveFewChildren};
ghost use Rattle.k_dict_saved.specs.Migration as spec;
ghost use Rattle.k_sum.specs.Sums.{HasBounds};
ghost use Rattle.k_sum_order.specs.Order.{AreOrdered, IsOrdered};
ghost use Rattle.k_sum_order.specs.Placing.{AreLevels, HasParts};

use crate::levels::levels_of;
use crate::placing::order_level;
use k_dict_entries::{Dict, DictFault, Entry, EntryTable, Run, Tally};
use k_num::{NoMemory, Seq};
use k_sum::{Sum, count_renumbered};
use std::alloc::Global;

/// The level behind all of these.
fn end_of(levels: &[u32]) -> u32
    requires { (n : ℕ) → slice_index_or levels.now n 0 < 1048576 }
    ensures { (n : ℕ) → n < length levels.now → slice_index_or levels.now n 0 < result }
{
    let mut end = 0;
    for level in levels {
        end = end.max(*level + 1);
    }
    end
}

/// Brings the entries of all levels in order.
fn order_levels(
    alloc: Global,
    entries: &[Entry],
    levels: &[u32],
    numbers: &mut [u32],
    table: &mut EntryTable,
) -> Result<(), DictFault>
    requires interned { AreInterned entries.now }
    requires few { HaveFewChildren entries.now }
    requires levels { AreLevels entries.now levels.now }
    requires count { length numbers.old ≡ length entries.now }
    requires none { table.old ≡ [] }
    ensures ordered { OnOk result (AreOrdered entries.now numbers.new table.new) }
    ensures distinct { AreDistinct table.new }
{
    for level in 0..end_of(levels) {
        order_level(alloc, entries, levels, level, numbers, table)?;
    }
    Ok(())
}

/// Entries of a dictionary in order, and the numbers that they have then.
fn order(alloc: Global, entries: &[Entry]) -> Result<(Dict, Vec<u32>), DictFault>
    requires interned { AreInterned entries.now }
    requires few { HaveFewChildren entries.now }
    ensures ordered { IfOk result (λ found. AreOrdered entries.now found.1.items found.0) }
    ensures interned { IfOk result (λ found. AreInterned found.0) }
{
    let Ok(levels) = levels_of(alloc, entries) else {
        return Err(DictFault::Memory);
    };
    let Ok(mut numbers) = vec![in alloc; 0u32; entries.len()] else {
        return Err(DictFault::Memory);
    };
    let mut table = EntryTable::new(alloc);
    order_levels(alloc, entries, &levels, &mut numbers, &mut table)?;
    Ok((Dict::from_table(table), numbers))
}

/// Roots by the numbers that their entries have then.
fn order_roots(alloc: Global, numbers: &[u32], roots: &[Run]) -> Result<Seq<Run>, NoMemory>
    requires below { NameBelow (length numbers.now) roots.now }
    requires few { total roots.now < 2 ^ 64 }
    ensures { IfOk result (λ renumbered. renumbered ≡ spec.renumbered numbers.now roots.now []) }
{
    let mut tally = Tally::new(alloc);
    count_renumbered(&mut tally, numbers, roots)?;
    let renumbered = tally.runs(alloc)?;
    drop(tally);
    Ok(renumbered)
}

/// The dictionary and the roots of a sum in order.
fn ordered_parts(alloc: Global, sum: &Sum) -> Result<(Dict, Seq<Run>), DictFault>
    requires { HasBounds sum.now }
    ensures parts { IfOk result (λ found. HasParts sum.now found.0 found.1) }
    ensures interned { IfOk result (λ found. AreInterned found.0) }
{
    let (dict, numbers) = order(alloc, sum.dict.entries())?;
    match order_roots(alloc, numbers.as_slice(), sum.roots.as_slice()) {
        Ok(roots) => Ok((dict, roots)),
        Err(NoMemory) => {
            drop(dict);
            Err(DictFault::Memory)
        }
    }
}

/// The sum with its entries in order.
pub fn in_order(alloc: Global, sum: Sum) -> Result<Sum, DictFault>
    requires { HasBounds sum }
    ensures ordered { IfOk result (IsOrdered sum) }
    ensures bounds { IfOk result HasBounds }
    ensures interned { IfOk result (λ ordered. AreInterned ordered.dict) }
{
    let (dict, roots) = ordered_parts(alloc, &sum)?;
    let Sum {
        runs,
        exits,
        ops,
        work,
        regions,
        dict: before,
        roots: _,
    } = sum;
    drop(before);
    Ok(Sum {
        runs,
        exits,
        ops,
        work,
        regions,
        dict,
        roots,
    })
}
