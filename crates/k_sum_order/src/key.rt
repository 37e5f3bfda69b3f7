//! The numbers by which entries are ordered.
ghost use Rattle.std.specs.Prelude.{◌≡◌, ◌^◌, ◌<◌, ◌++◌, length, IfOk, OnOk};
ghost use Rattle.k_dict_entries.specs.Entries.{NameBelow};
ghost use Rattle.k_dict_entries.specs.Tallies.{total};
ghost use Rattle.k_dict_saved.specs.Migration.{renumbered_entry};
ghost use Rattle.k_sum_order.specs.Order.{key_of, run_numbers};
ghost use Rattle.k_sum_order.specs.Order as spec;

use k_dict_entries::{Entry, Run};
use k_num::NoMemory;
use k_sum::renumber;
use std::alloc::Global;

/// How many entries are the fewest that stand before one with these runs.
pub(crate) fn behind(runs: &[Run]) -> u64
    ensures { result ≡ spec.behind runs.now }
{
    let mut number = 0;
    let mut rest = runs;
    while let Some((run, later)) = rest.split_first() {
        let next = u64::from(run.entry) + 1;
        number = number.max(next);
        rest = later;
    }
    number
}

/// Adds the numbers of runs.
fn push_runs(key: &mut Vec<u64>, runs: &[Run]) -> Result<(), NoMemory>
    ensures { OnOk result (key.new.items ≡ key.old.items ++ run_numbers runs.now) }
{
    let mut rest = runs;
    while let Some((run, later)) = rest.split_first() {
        key.push(u64::from(run.entry))?;
        key.push(run.count)?;
        rest = later;
    }
    Ok(())
}

/// The numbers of an entry.
fn numbers_of(alloc: Global, entry: &Entry) -> Result<Vec<u64>, NoMemory>
    ensures { IfOk result (λ key. key.items ≡ key_of entry.now) }
{
    let mut key = Vec::new(alloc);
    key.push(behind(entry.runs.as_slice()))?;
    key.push(u64::from(entry.region))?;
    key.push(entry.work)?;
    key.push(entry.path)?;
    push_runs(&mut key, entry.runs.as_slice())?;
    Ok(key)
}

/// The numbers of an entry, where those that it names have these numbers.
pub(crate) fn key(alloc: Global, numbers: &[u32], entry: &Entry) -> Result<Vec<u64>, NoMemory>
    requires below { NameBelow (length numbers.now) entry.now.runs }
    requires few { total entry.now.runs < 2 ^ 64 }
    ensures { IfOk result (λ key. key.items ≡ key_of (renumbered_entry numbers.now entry.now)) }
{
    let renumbered = renumber(alloc, numbers, entry)?;
    let key = numbers_of(alloc, &renumbered);
    drop(renumbered);
    key
}
