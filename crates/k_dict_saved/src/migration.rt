//! A profile of format 1 as one of format 2. Entries that differ in the order of their children alone become one.
ghost use Rattle.std.specs.Prelude.{◌≡◌, ◌^◌, ◌<◌, [], length, slice_index_or, IfOk};
ghost use Rattle.k_dict_entries.specs.Entries.{AreDistinct, AreInterned, NameBelow, trees_of};
ghost use Rattle.k_dict_entries.specs.Tallies.{total};
ghost use Rattle.k_dict_saved.specs.Formats.{HaveRuns};
ghost use Rattle.k_dict_saved.specs.Migration.{AreOfShapes, HaveFewChildren};
ghost use Rattle.k_dict_saved.specs.Migration as spec;
ghost use Rattle.k_dict_saved.specs.Profile.{IsMigrated, IsOld, IsSaved};
ghost use Rattle.k_dict_saved.specs.declared.format.Format.TheVariants.{One};

use crate::saved::{Old, Saved};
use k_dict_entries::{Dict, DictFault, Entry, Run, Tally};
use k_num::{NoMemory, Seq, Text};
use k_optab::Region;
use std::alloc::Global;

/// The number that an entry has.
fn number_at(numbers: &[u32], entry: u32) -> u32
    requires { entry < length numbers.now }
    ensures { result ≡ slice_index_or numbers.now entry 0 }
{
    numbers[entry as usize]
}

/// How often each entry occurs among the children of these runs, where the entries that they name have these numbers.
fn tally_of(alloc: Global, numbers: &[u32], runs: &[Run]) -> Result<Tally, NoMemory>
    requires below { NameBelow (length numbers.now) runs.now }
    requires few { total runs.now < 2 ^ 64 }
    ensures { IfOk result (λ tally. tally ≡ spec.renumbered numbers.now runs.now []) }
{
    let mut tally = Tally::new(alloc);
    let mut rest = runs;
    while let Some((run, later)) = rest.split_first() {
        let number = number_at(numbers, run.entry);
        tally.add(number, run.count)?;
        rest = later;
    }
    Ok(tally)
}

/// The entry for the instances of one of format 1, where the entries that it names have these numbers.
fn renumber(alloc: Global, numbers: &[u32], entry: &Entry) -> Result<Entry, NoMemory>
    requires below { NameBelow (length numbers.now) entry.now.runs }
    requires few { total entry.now.runs < 2 ^ 64 }
    ensures { IfOk result (λ renumbered. renumbered ≡ spec.renumbered_entry numbers.now entry.now) }
{
    let tally = tally_of(alloc, numbers, entry.runs.as_slice())?;
    let runs = tally.runs(alloc)?;
    drop(tally);
    Ok(Entry {
        region: entry.region,
        work: entry.work,
        path: entry.path,
        runs,
    })
}

/// The entries of the trees that entries of format 1 stand for, one for each shape. There are no more of them than of those, nor
/// have they more runs, so they are within the limits of a dictionary.
fn dictionary(alloc: Global, entries: &[Entry]) -> Result<Dict, NoMemory>
    requires runs { HaveRuns One entries.now }
    requires distinct { AreDistinct entries.now }
    requires few { HaveFewChildren entries.now }
    ensures shapes { IfOk result (AreOfShapes (trees_of entries.now)) }
    ensures interned { IfOk result AreInterned }
{
    let mut dict = Dict::new(alloc);
    let mut numbers: Seq<u32> = Seq::new(alloc);
    let mut rest = entries;
    while let Some((entry, later)) = rest.split_first() {
        let renumbered = renumber(alloc, numbers.as_slice(), entry)?;
        match dict.intern(renumbered) {
            Ok(number) => numbers.push(number)?,
            Err(DictFault::Full(_)) => unreachable!(),
            Err(DictFault::Memory) => return Err(NoMemory),
        }
        rest = later;
    }
    drop(numbers);
    Ok(dict)
}

/// A copy of a region.
fn copy_region(alloc: Global, region: &Region) -> Result<Region, NoMemory>
    ensures { IfOk result (λ copy. copy ≡ region.now) }
{
    let func = Text::copy_of(alloc, region.func.as_str())?;
    Ok(Region {
        kind: region.kind,
        func,
        place: region.place,
    })
}

/// A copy of regions.
fn copy_regions(alloc: Global, regions: &[Region]) -> Result<Seq<Region>, NoMemory>
    ensures { IfOk result (λ copies. copies ≡ regions.now) }
{
    let mut copies = Seq::new(alloc);
    for region in regions {
        let copy = copy_region(alloc, region)?;
        copies.push(copy)?;
    }
    Ok(copies)
}

/// The profile of format 2 that a profile of format 1 becomes: the same run and regions, with the dictionary of its tree.
pub fn migrate(alloc: Global, old: &Old) -> Result<Saved, NoMemory>
    requires { IsOld old.now }
    ensures saved { IfOk result IsSaved }
    ensures migrated { IfOk result (IsMigrated old.now) }
{
    let dict = dictionary(alloc, old.entries.as_slice())?;
    match copy_regions(alloc, old.regions.as_slice()) {
        Ok(regions) => Ok(Saved {
            exit: old.exit,
            ops: old.ops,
            regions,
            dict,
        }),
        Err(NoMemory) => {
            drop(dict);
            Err(NoMemory)
        }
    }
}
