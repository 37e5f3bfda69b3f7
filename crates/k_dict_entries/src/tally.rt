//! How often each entry occurs among the closed children of an open instance.
ghost use Rattle.std.specs.Prelude.{◌≡◌, ◌+◌, ◌^◌, ◌<◌, ◌≤◌, [], OnOk, OnErr, IfOk};
ghost use Rattle.k_dict_entries.specs.Tallies.{count_of, counted};

use crate::entry::Run;
use k_num::{NoMemory, Seq};
use std::alloc::Global;
use std::collections::BTreeMap;
use std::marker::Model;

/// Counts of children by the numbers of their entries. Contracts see them as runs by rising number.
#[derive(Drop)]
pub struct Tally {
    counts: BTreeMap<u32, u64>,
}

impl Model for Tally {
    ghost use Rattle.std.specs.Prelude.{List, map};
    ghost use Rattle.std.specs.BTreeMap.{IsOrdered};
    ghost use Rattle.std.specs.Ordering.{nat_cmp};
    ghost use Rattle.k_dict_entries.specs.declared.entry.Run.{Run as RunValue};
    ghost use Rattle.k_dict_entries.specs.Tallies.{run_of};

    ghost Value = { List RunValue };

    ghost view = { λ t. map run_of t.counts.entries };

    ghost invariant = { λ t. IsOrdered nat_cmp t.counts };
}

impl Tally {
    /// No children. It takes no memory until one is added.
    pub fn new(alloc: Global) -> Tally
        ensures { result ≡ [] }
    {
        Tally {
            counts: BTreeMap::new(alloc),
        }
    }

    /// Adds children of an entry. A refusal changes nothing.
    pub fn add(&mut self, entry: u32, count: u64) -> Result<(), NoMemory>
        requires { count_of entry self.old + count < 2 ^ 64 }
        ensures ok { OnOk result (self.new ≡ counted entry count self.old) }
        ensures err { OnErr result (self.new ≡ self.old) }
    {
        let before = self.counts.get(&entry).copied().unwrap_or(0);
        self.counts.insert(entry, count + before)?;
        Ok(())
    }

    /// The runs, by rising number.
    pub fn runs(&self, alloc: Global) -> Result<Seq<Run>, NoMemory>
        ensures { IfOk result (λ runs. runs ≡ self.now) }
    {
        let mut runs = Seq::new(alloc);
        for (entry, count) in &self.counts {
            runs.push(Run {
                entry: *entry,
                count: *count,
            })?;
        }
        Ok(runs)
    }
}
