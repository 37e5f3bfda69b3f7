//! Exit values, each with how many runs ended with it.
ghost use Rattle.std.specs.Prelude.{◌≡◌, ◌+◌, ◌^◌, ◌<◌, [], OnOk, OnErr, IfOk};
ghost use Rattle.k_sum.specs.Exits.{counted, runs_of};

use k_num::{NoMemory, Seq};
use std::alloc::Global;
use std::collections::BTreeMap;
use std::marker::Model;

/// Runs that ended with one exit value.
#[derive(Clone, Copy, Debug, PartialEq, Eq)]
pub struct Exit {
    /// What main returned.
    pub value: i32,
    /// How many runs ended so.
    pub runs: u64,
}

/// Counts of runs by their exit values. Contracts see them as a list by rising value.
#[derive(Drop)]
pub struct Exits {
    counts: BTreeMap<i32, u64>,
}

impl Model for Exits {
    ghost use Rattle.std.specs.Prelude.{List, map};
    ghost use Rattle.std.specs.BTreeMap.{IsOrdered};
    ghost use Rattle.std.specs.Ordering.{int_cmp};
    ghost use Rattle.k_sum.specs.declared.exits.Exit.{Exit as ExitValue};
    ghost use Rattle.k_sum.specs.Exits.{exit_of};

    ghost Value = { List ExitValue };

    ghost view = { λ t. map exit_of t.counts.entries };

    ghost invariant = { λ t. IsOrdered int_cmp t.counts };
}

impl Exits {
    /// No runs. It takes no memory until one is added.
    pub fn new(alloc: Global) -> Exits
        ensures { result ≡ [] }
    {
        Exits {
            counts: BTreeMap::new(alloc),
        }
    }

    /// Adds runs that ended with a value. A refusal changes nothing.
    pub fn add(&mut self, value: i32, runs: u64) -> Result<(), NoMemory>
        requires { runs_of value self.old + runs < 2 ^ 64 }
        ensures ok { OnOk result (self.new ≡ counted value runs self.old) }
        ensures err { OnErr result (self.new ≡ self.old) }
    {
        let before = self.counts.get(&value).copied().unwrap_or(0);
        self.counts.insert(value, runs + before)?;
        Ok(())
    }

    /// The values with their counts, by rising value.
    pub fn list(&self, alloc: Global) -> Result<Seq<Exit>, NoMemory>
        ensures { IfOk result (λ exits. exits ≡ self.now) }
    {
        let mut exits = Seq::new(alloc);
        for (value, runs) in &self.counts {
            exits.push(Exit {
                value: *value,
                runs: *runs,
            })?;
        }
        Ok(exits)
    }
}
