//! What is gathered of a run, event by event.
ghost use Rattle.std.specs.Prelude.{◌≡◌, IfOk, OnOk, min, take, length};
ghost use Rattle.k_carry_storage_pairs.specs.Kept.{both_entered, both_left, both_shared, none_shared, storage_of};

use crate::LoopStorage;
use crate::flags::set_if;
use crate::joining::join;
use k_carry_pairs::{Gathering, Origin};
use k_num::{NoMemory, Place, Seq};
use k_optab::Region;
use std::alloc::Global;
use std::marker::Model;

/// What is gathered of a run: the pairs that follow a load, those that follow a store, with which operations the open instances begin, and which regions had
/// an instance that is not tracked.
#[derive(Drop)]
pub struct SharedGathering<'a> {
    loads: Gathering<'a>,
    stores: Gathering<'a>,
    starts: Vec<u64>,
    depth: usize,
    deep: Vec<bool>,
}

impl<'a> Model for SharedGathering<'a> {
    ghost use Rattle.k_carry_storage_pairs.specs.Kept.{Kept};

    ghost Value = { Kept };

    ghost view = { λ g. record { loads = g.loads; stores = g.stores; starts = g.starts.items; depth = g.depth; deep = g.deep.items } };
}

impl<'a> SharedGathering<'a> {
    /// Nothing has happened.
    pub fn new(
        alloc: Global,
        regions: &'a [Region],
        depth: u32,
    ) -> Result<SharedGathering<'a>, NoMemory>
        ensures { IfOk result (λ g. g ≡ none_shared regions.now depth) }
    {
        Ok(SharedGathering {
            loads: Gathering::new(alloc, regions, depth)?,
            stores: Gathering::new(alloc, regions, depth)?,
            starts: Vec::new(alloc),
            depth: depth as usize,
            deep: Vec::new(alloc),
        })
    }

    /// An instance of a region is entered, behind so many operations.
    pub fn enter(&mut self, region: u32, made: u64) -> Result<(), NoMemory>
        ensures { OnOk result (self.new ≡ both_entered region made self.old) }
    {
        self.loads.enter(region, made)?;
        self.stores.enter(region, made)?;
        let is_deep = self.starts.len() >= self.depth;
        set_if(&mut self.deep, region, is_deep)?;
        self.starts.push(made)?;
        Ok(())
    }

    /// The innermost instance is left, behind so many operations.
    pub fn leave(&mut self, made: u64)
        ensures { self.new ≡ both_left made self.old }
    {
        self.loads.leave(made);
        self.stores.leave(made);
        self.starts.truncate(self.starts.len().saturating_sub(1));
    }

    /// With which operations the open instances begin that are tracked, the outermost first.
    pub fn tracked(&self) -> &[u64]
        ensures { result.now ≡ take (min self.now.depth (length self.now.starts)) self.now.starts }
    {
        let count = self.depth.min(self.starts.len());
        &self.starts[..count]
    }

    /// An operation at this place stores to an element: these are the first to load it, and these to store to it, of the open instances.
    pub fn share(&mut self, loads: &[Origin], stores: &[Origin], to: Place) -> Result<(), NoMemory>
        ensures { OnOk result (self.new ≡ both_shared loads.now stores.now to self.old) }
    {
        self.loads.depend(loads, to)?;
        self.stores.depend(stores, to)
    }

    /// The loops that had a tracked instance, with their storage pairs.
    pub fn loops(&self, alloc: Global) -> Result<Seq<LoopStorage>, NoMemory>
        ensures { IfOk result (λ loops. loops ≡ storage_of self.now) }
    {
        let loads = self.loads.loops(alloc)?;
        let stores = self.stores.loops(alloc)?;
        join(alloc, loads.as_slice(), stores.as_slice())
    }
    /// For each region, by its number, whether an instance of it was not tracked.
    pub fn deep(&self, alloc: Global) -> Result<Seq<bool>, NoMemory>
        ensures { IfOk result (λ deep. deep ≡ self.now.deep) }
    {
        Seq::copy_of(alloc, &self.deep)
    }
}
