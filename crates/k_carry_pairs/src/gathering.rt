//! What is gathered of a run, event by event.
ghost use Rattle.std.specs.Prelude.{◌≡◌, ◌<◌, ◌≤◌, [], List, Bool, length, replicate, IfOk, OnOk};
ghost use Rattle.k_carry_pairs.specs.Carried.{AreSorted, is_loop_at, is_loop_kind};
ghost use Rattle.k_carry_pairs.specs.Gathered.{HaveNumbers, depended_all, entered, found_all, found_before, left as left_meant, loops_from, nothing};

use crate::found::{Found, pairs_of};
use crate::levels::{Level, Levels, depend, some_carries};
use crate::{LoopPairs, Origin};
use k_num::{NoMemory, Place, Seq, Stack};
use k_optab::Region;
use std::alloc::Global;
use std::marker::Model;

/// What is gathered of a run: its open instances, those of tracked loops with a level, and the pairs that loops have so far.
#[derive(Drop)]
pub struct Gathering<'a> {
    regions: &'a [Region],
    depth: usize,
    opened: Stack<u32>,
    levels: Levels,
    seen: Vec<bool>,
    found: Vec<Found>,
}

impl<'a> Model for Gathering<'a> {
    ghost use Rattle.std.specs.Prelude.{◌≡◌, length};
    ghost use Rattle.k_carry_pairs.specs.Carried.{AreSorted};
    ghost use Rattle.k_carry_pairs.specs.Gathered.{Gathered, IsWhole, found_before};

    ghost Value = { Gathered };

    ghost view = { λ g. record {
      regions = g.regions.now;
      depth = g.depth;
      opened = g.opened;
      levels = g.levels;
      seen = g.seen.items;
      found = g.found.items;
    } };

    ghost invariant = { λ g. IsWhole g.regions.now g.seen.items g.found.items };
}

impl<'a> Gathering<'a> {
    /// Nothing has happened.
    pub fn new(alloc: Global, regions: &'a [Region], depth: u32) -> Result<Gathering<'a>, NoMemory>
        ensures { IfOk result (λ g. g ≡ nothing regions.now depth) }
    {
        let mut seen = Vec::new(alloc);
        seen.resize(regions.len(), false)?;
        Ok(Gathering {
            regions,
            depth: depth as usize,
            opened: Stack::new(alloc),
            levels: Levels::new(alloc),
            seen,
            found: Vec::new(alloc),
        })
    }

    /// An instance of a region is entered, behind so many operations.
    pub fn enter(&mut self, region: u32, made: u64) -> Result<(), NoMemory>
        ensures { OnOk result (self.new ≡ entered region made self.old) }
    {
        let depth = self.opened.len();
        self.opened.push(region)?;
        if depth < self.depth && is_loop(self.regions, region) {
            self.levels.push(Level {
                region,
                depth,
                first: made,
                turn: 0,
            })?;
            self.seen[region as usize] = true;
        }
        Ok(())
    }

    /// The innermost instance is left, behind so many operations.
    pub fn leave(&mut self, made: u64)
        ensures { self.new ≡ left_meant made self.old }
    {
        if let Some(region) = self.opened.pop() {
            let depth = self.opened.len();
            self.levels.leave(depth);
            self.levels.begin_turn(made, region, depth);
        }
    }

    /// An operation at this place depends on these.
    pub fn depend(&mut self, origins: &[Origin], to: Place) -> Result<(), NoMemory>
        ensures { OnOk result (self.new ≡ depended_all origins.now to self.old) }
    {
        depend_all(self.levels.as_slice(), origins, to, &mut self.found)
    }

    /// The loops that had a tracked instance, with their pairs.
    pub fn loops(&self, alloc: Global) -> Result<Seq<LoopPairs>, NoMemory>
        ensures { IfOk result (λ loops. loops ≡ loops_from 0 self.now.seen self.now.found) }
    {
        loops_of(alloc, &self.seen, &self.found)
    }
}

/// Whether a region is a loop.
fn is_loop(regions: &[Region], region: u32) -> bool
    ensures { result ≡ is_loop_at regions.now region }
{
    match regions.get(region as usize) {
        Some(region) => region.kind.is_loop(),
        None => false,
    }
}

/// An operation at this place depends on these.
fn depend_all(
    levels: &[Level],
    origins: &[Origin],
    to: Place,
    found: &mut Vec<Found>,
) -> Result<(), NoMemory>
    requires { AreSorted found_before found.old.items }
    ensures found { OnOk result (found.new.items ≡ found_all levels.now origins.now to found.old.items) }
    ensures sorted { AreSorted found_before found.new.items }
{
    let mut rest = origins;
    while let Some((origin, later)) = rest.split_first() {
        if some_carries(levels, origin.number) {
            depend(levels, *origin, to, found)?;
        }
        rest = later;
    }
    Ok(())
}

/// The loops that were seen, with their pairs.
fn loops_of(alloc: Global, seen: &[bool], found: &[Found]) -> Result<Seq<LoopPairs>, NoMemory>
    requires { HaveNumbers seen.now }
    ensures { IfOk result (λ loops. loops ≡ loops_from 0 seen.now found.now) }
{
    let mut loops = Seq::new(alloc);
    let mut rest = seen;
    while let Some((is_seen, later)) = rest.split_first() {
        if *is_seen {
            let region = (seen.len() - rest.len()) as u32;
            loops.push(LoopPairs {
                region,
                pairs: pairs_of(alloc, region, found)?,
            })?;
        }
        rest = later;
    }
    Ok(loops)
}
