//! Runs put together with others.
ghost use Rattle.std.specs.Prelude.{◌≡◌, ◌+◌, ◌^◌, ◌<◌, [], length, IsTrue, ◌↔◌, IfOk, OnOk};
ghost use Rattle.k_dict_entries.specs.Entries.{AreInterned, NameBelow};
ghost use Rattle.k_dict_entries.specs.Tallies.{total};
ghost use Rattle.k_dict_saved.specs.Migration.{renumbered};
ghost use Rattle.k_sum.specs.Joining.{counted_all};
ghost use Rattle.k_sum.specs.Sums.{AddsTo, CanJoin, HasBounds, IsLarge, Joins};
ghost use Rattle.k_sum.specs.Exits.{with_exits};
ghost use Rattle.k_sum.specs.Exits as exits_spec;

use crate::entries::{add_entries, count_all, count_renumbered};
use crate::exits::{Exit, Exits};
use crate::sum::{Sum, SumFault};
use k_dict_entries::{Dict, DictFault, Run, Tally};
use k_num::{NoMemory, Seq};
use k_optab::Region;
use std::alloc::Global;

/// Sums have fewer runs than this.
const MOST_RUNS: u64 = 4_294_967_296;

/// The work of a sum is below this.
const MOST_WORK: u64 = 4_611_686_018_427_387_904;

/// Whether two lists of regions are one.
fn are_same(one: &[Region], other: &[Region]) -> bool
    ensures { IsTrue result ↔ (one.now ≡ other.now) }
{
    one == other
}

/// Whether two sums together pass a limit.
fn is_large(one: &Sum, other: &Sum) -> bool
    requires bounds { HasBounds one.now }
    requires more { HasBounds other.now }
    ensures { IsTrue result ↔ IsLarge one.now other.now }
{
    one.runs + other.runs >= MOST_RUNS || one.work + other.work >= MOST_WORK
}

/// Adds the runs of an exit value.
fn add_exit(all: &mut Exits, exit: &Exit) -> Result<(), NoMemory>
    requires { exits_spec.runs_of exit.now.value all.old + exit.now.runs < 2 ^ 64 }
    ensures { OnOk result (all.new ≡ exits_spec.counted exit.now.value exit.now.runs all.old) }
{
    all.add(exit.value, exit.runs)
}

/// Adds runs by their exit values.
fn add_exits(all: &mut Exits, exits: &[Exit]) -> Result<(), NoMemory>
    requires { exits_spec.total all.old + exits_spec.total exits.now < 2 ^ 64 }
    ensures { OnOk result (all.new ≡ with_exits all.old exits.now) }
{
    let mut rest = exits;
    while let Some((exit, later)) = rest.split_first() {
        add_exit(all, exit)?;
        rest = later;
    }
    Ok(())
}

/// The exit values of runs and of others.
fn join_exits(alloc: Global, exits: &[Exit], more: &[Exit]) -> Result<Seq<Exit>, NoMemory>
    requires { exits_spec.total exits.now + exits_spec.total more.now < 2 ^ 64 }
    ensures { IfOk result (λ all. all ≡ with_exits (with_exits [] exits.now) more.now) }
{
    let mut all = Exits::new(alloc);
    add_exits(&mut all, exits)?;
    add_exits(&mut all, more)?;
    let list = all.list(alloc)?;
    drop(all);
    Ok(list)
}

/// The roots of runs and of others, whose entries have these numbers.
fn join_roots(
    alloc: Global,
    roots: &[Run],
    numbers: &[u32],
    more: &[Run],
) -> Result<Seq<Run>, NoMemory>
    requires below { NameBelow (length numbers.now) more.now }
    requires few { total roots.now + total more.now < 2 ^ 64 }
    ensures { IfOk result (λ all. all ≡ renumbered numbers.now more.now (counted_all roots.now [])) }
{
    let mut tally = Tally::new(alloc);
    count_all(&mut tally, roots)?;
    count_renumbered(&mut tally, numbers, more)?;
    let all = tally.runs(alloc)?;
    drop(tally);
    Ok(all)
}

/// Adds the entries of other runs, and tells the exit values and the roots of all.
fn join(
    alloc: Global,
    dict: &mut Dict,
    exits: &[Exit],
    roots: &[Run],
    other: &Sum,
) -> Result<(Seq<Exit>, Seq<Run>), DictFault>
    requires more { HasBounds other.now }
    requires can { CanJoin exits.now roots.now other.now }
    requires interned { AreInterned dict.old }
    ensures joins { Joins dict.old exits.now roots.now other.now result dict.new }
    ensures interned { AreInterned dict.new }
{
    let numbers = add_entries(alloc, dict, other.dict.entries())?;
    let Ok(all_exits) = join_exits(alloc, exits, other.exits.as_slice()) else {
        return Err(DictFault::Memory);
    };
    let Ok(all_roots) = join_roots(alloc, roots, numbers.as_slice(), other.roots.as_slice()) else {
        return Err(DictFault::Memory);
    };
    Ok((all_exits, all_roots))
}

impl Sum {
    /// Puts other runs of the same program to these. A refusal changes nothing.
    pub fn add(&mut self, alloc: Global, other: &Sum) -> Result<(), SumFault>
        requires bounds { HasBounds self.old }
        requires more { HasBounds other.now }
        ensures adds { AddsTo self.old other.now result self.new }
        ensures interned { AreInterned self.new.dict }
    {
        let keep = self.dict.len();
        if !are_same(self.regions.as_slice(), other.regions.as_slice()) {
            return Err(SumFault::Other);
        }
        if is_large(self, other) {
            return Err(SumFault::Large);
        }
        match join(
            alloc,
            &mut self.dict,
            self.exits.as_slice(),
            self.roots.as_slice(),
            other,
        ) {
            Err(fault) => {
                self.dict.shorten(keep);
                Err(SumFault::Dict(fault))
            }
            Ok((exits, roots)) => {
                self.runs += other.runs;
                self.ops += other.ops;
                self.work += other.work;
                self.exits = exits;
                self.roots = roots;
                Ok(())
            }
        }
    }
}
