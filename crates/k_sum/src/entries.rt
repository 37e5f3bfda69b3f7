//! The entries of one dictionary, added to those of another.
ghost use Rattle.std.specs.Prelude.{◌≡◌, ◌+◌, ◌^◌, ◌<◌, [], length, slice_index_or, IfOk, OnOk};
ghost use Rattle.k_dict_entries.specs.Entries.{AreInterned, NameBelow, NameEarlier};
ghost use Rattle.k_dict_entries.specs.Tallies.{total};
ghost use Rattle.k_dict_saved.specs.Migration.{HaveFewChildren, renumbered, renumbered_entry};
ghost use Rattle.k_sum.specs.Joining.{AreKnown, JoinsAll, JoinsOne, counted_all};

use k_dict_entries::{Dict, DictFault, Entry, Run, Tally};
use k_num::{NoMemory, Seq};
use std::alloc::Global;

/// The number that an entry has.
fn number_at(numbers: &[u32], entry: u32) -> u32
    requires { entry < length numbers.now }
    ensures { result ≡ slice_index_or numbers.now entry 0 }
{
    numbers[entry as usize]
}

/// Counts these children too.
pub(crate) fn count_all(tally: &mut Tally, runs: &[Run]) -> Result<(), NoMemory>
    requires { total tally.old + total runs.now < 2 ^ 64 }
    ensures { OnOk result (tally.new ≡ counted_all runs.now tally.old) }
{
    let mut rest = runs;
    while let Some((run, later)) = rest.split_first() {
        tally.add(run.entry, run.count)?;
        rest = later;
    }
    Ok(())
}

/// Counts these children too, where the entries that they name have these numbers.
pub fn count_renumbered(tally: &mut Tally, numbers: &[u32], runs: &[Run]) -> Result<(), NoMemory>
    requires below { NameBelow (length numbers.now) runs.now }
    requires few { total tally.old + total runs.now < 2 ^ 64 }
    ensures { OnOk result (tally.new ≡ renumbered numbers.now runs.now tally.old) }
{
    let mut rest = runs;
    while let Some((run, later)) = rest.split_first() {
        let number = number_at(numbers, run.entry);
        tally.add(number, run.count)?;
        rest = later;
    }
    Ok(())
}

/// The entry for the instances of another one, where the entries that it names have these numbers.
pub fn renumber(alloc: Global, numbers: &[u32], entry: &Entry) -> Result<Entry, NoMemory>
    requires below { NameBelow (length numbers.now) entry.now.runs }
    requires few { total entry.now.runs < 2 ^ 64 }
    ensures { IfOk result (λ renumbered. renumbered ≡ renumbered_entry numbers.now entry.now) }
{
    let mut tally = Tally::new(alloc);
    count_renumbered(&mut tally, numbers, entry.runs.as_slice())?;
    let runs = tally.runs(alloc)?;
    drop(tally);
    Ok(Entry {
        region: entry.region,
        work: entry.work,
        path: entry.path,
        runs,
    })
}

/// Adds an entry whose children's entries have these numbers, and tells its number.
#[tactic(auto, using(crate::proofs::Joins::can_join, crate::proofs::Joins::joins_one))]
fn add_entry(
    alloc: Global,
    dict: &mut Dict,
    numbers: &[u32],
    entry: &Entry,
) -> Result<u32, DictFault>
    requires below { NameBelow (length numbers.now) entry.now.runs }
    requires few { total entry.now.runs < 2 ^ 64 }
    requires known { AreKnown (length dict.old) numbers.now }
    requires interned { AreInterned dict.old }
    ensures joins { JoinsOne dict.old numbers.now entry.now result dict.new }
    ensures interned { AreInterned dict.new }
{
    match renumber(alloc, numbers, entry) {
        Ok(renumbered) => dict.intern(renumbered),
        Err(NoMemory) => Err(DictFault::Memory),
    }
}

/// Adds the entries of another dictionary, and tells the numbers that they have then.
pub(crate) fn add_entries(
    alloc: Global,
    dict: &mut Dict,
    entries: &[Entry],
) -> Result<Seq<u32>, DictFault>
    requires earlier { NameEarlier entries.now }
    requires few { HaveFewChildren entries.now }
    requires interned { AreInterned dict.old }
    ensures joins { JoinsAll dict.old entries.now result dict.new }
    ensures interned { AreInterned dict.new }
{
    let mut numbers: Seq<u32> = Seq::new(alloc);
    let mut rest = entries;
    while let Some((entry, later)) = rest.split_first() {
        match add_entry(alloc, dict, numbers.as_slice(), entry) {
            Err(fault) => return Err(fault),
            Ok(number) => {
                if let Err(NoMemory) = numbers.push(number) {
                    return Err(DictFault::Memory);
                }
            }
        }
        rest = later;
    }
    Ok(numbers)
}
