//! Entries in order of first use, each once, found by hash. Their runs may stand in any order.
ghost use Rattle.std.specs.Prelude.{◌≡◌, ◌<◌, ◌≤◌, [], length, take, IfOk};
ghost use Rattle.k_dict_entries.specs.Entries.{all_runs};

use crate::dict::{DictFault, Which};
use crate::entry::Entry;
use indexmap::IndexSet;
use k_num::{NoMemory, Seq};
use std::alloc::Global;
use std::marker::Model;

/// The greatest number of entries.
const MOST_ENTRIES: usize = 1_048_576;

/// The greatest number of runs of all entries together.
const MOST_RUNS_TOGETHER: u64 = 16_777_216;

/// Entries without repeats, in order of first use. Contracts see their list.
#[derive(Drop)]
pub struct EntryTable {
    entries: IndexSet<Entry>,
    /// The runs of all entries together.
    runs: u64,
}

impl Model for EntryTable {
    ghost use Rattle.std.specs.Prelude.{◌≡◌, List};
    ghost use Rattle.k_dict_entries.specs.declared.entry.Entry.{Entry as EntryValue};
    ghost use Rattle.k_dict_entries.specs.Entries.{AreDistinct, all_runs};

    ghost Value = { List EntryValue };

    ghost view = { λ t. t.entries.keys };

    ghost invariant = { λ t. (t.runs ≡ all_runs t.entries.keys) × AreDistinct t.entries.keys };
}

/// The runs of entries together.
fn count_runs(entries: &[Entry]) -> u64
    requires { all_runs entries.now ≤ 16777216 }
    ensures { result ≡ all_runs entries.now }
{
    let mut runs = 0;
    for entry in entries {
        runs += entry.runs.len() as u64;
    }
    runs
}

impl EntryTable {
    ghost use Rattle.k_dict_entries.specs.Entries.{AreDistinct};
    ghost use Rattle.k_dict_entries.specs.Interning.{Interns};

    /// No entries. It takes no memory until one is added.
    pub fn new(alloc: Global) -> EntryTable
        ensures { result ≡ [] }
    {
        EntryTable {
            entries: IndexSet::new(alloc),
            runs: 0,
        }
    }

    /// How many entries there are.
    pub fn len(&self) -> u32
        ensures count { result ≡ length self.now }
        ensures distinct { AreDistinct self.now }
    {
        self.entries.len() as u32
    }

    /// All entries, by their numbers.
    pub fn entries(&self) -> &[Entry]
        ensures value { result.now ≡ self.now }
        ensures distinct { AreDistinct self.now }
    {
        self.entries.as_slice()
    }

    /// The entries as a list.
    pub fn into_entries(self, alloc: Global) -> Result<Seq<Entry>, NoMemory>
        ensures { IfOk result (λ entries. entries ≡ self) }
    {
        let EntryTable {
            mut entries,
            runs: _,
        } = self;
        let mut list = Vec::new(alloc);
        'entries: while let Some(entry) = entries.pop() {
            list.push(entry)?;
        }
        list.reverse();
        Ok(Seq::from_vec(list))
    }

    /// The number of an equal entry that is there, or else of this one, which is added last. A refusal drops the entry.
    pub fn intern(&mut self, entry: Entry) -> Result<u32, DictFault>
        ensures answer { Interns self.old entry result self.new }
        ensures distinct { AreDistinct self.new }
    {
        if let Some(number) = self.entries.get_index_of(&entry) {
            drop(entry);
            return Ok(number as u32);
        }
        let runs = self.runs + entry.runs.len() as u64;
        if self.entries.len() == MOST_ENTRIES {
            drop(entry);
            return Err(DictFault::Full(Which::Entries));
        }
        if runs > MOST_RUNS_TOGETHER {
            drop(entry);
            return Err(DictFault::Full(Which::AllRuns));
        }
        match self.entries.insert_full(entry) {
            Ok((number, _)) => {
                self.runs = runs;
                Ok(number as u32)
            }
            Err(refused) => {
                drop(refused);
                Err(DictFault::Memory)
            }
        }
    }

    /// Drops the newest entries until `keep` are left.
    pub fn shorten(&mut self, keep: u32)
        requires { keep ≤ length self.old }
        ensures { self.new ≡ take keep self.old }
    {
        let (_, newest) = self.entries.as_slice().split_at(keep as usize);
        let gone = count_runs(newest);
        self.entries.truncate(keep as usize);
        self.runs -= gone;
    }
}
