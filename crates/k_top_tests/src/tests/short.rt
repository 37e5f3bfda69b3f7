//! Shadows that refuse room from some call on.
ghost use Rattle.std.specs.Prelude.{◌≡◌};
ghost use Rattle.k_shadow.specs.Content.{empty};

use k_num::NoMemory;
use k_shadow::{LevelMaps, Shadow, Steps};
use std::alloc::Global;
use std::sync::ledger::Ledger;

/// A shadow as plain maps whose `reserve` passes its first calls and refuses every later one.
#[derive(Drop)]
pub struct Short {
    inner: LevelMaps,
    passes: u64,
}

impl Short {
    /// No level is live, and so many calls pass.
    pub fn new(alloc: Global, passes: u64) -> Short
        ensures empty { ⟦<Short as Shadow>⟧.content result ≡ empty 4294967295 }
    {
        Short {
            inner: LevelMaps::new(alloc),
            passes,
        }
    }
}

impl Shadow for Short {
    ghost content = { λ short. ⟦<LevelMaps as Shadow>⟧.content short.inner };

    ghost room = { λ short loc most. ⟦<LevelMaps as Shadow>⟧.room short.inner loc most };

    fn depth(&self) -> usize {
        self.inner.depth()
    }

    fn enter(&mut self) {
        self.inner.enter();
    }

    fn leave(&mut self) {
        self.inner.leave();
    }

    fn reserve(&mut self, first: u32, count: u32) -> Result<(), NoMemory> {
        if self.passes == 0 {
            return Err(NoMemory);
        }
        self.passes -= 1;
        self.inner.reserve(first, count)
    }

    fn read<L: Ledger>(&self, loc: u32, level: usize, steps: &mut Steps<L>) -> u64 {
        self.inner.read(loc, level, steps)
    }

    fn put(&mut self, loc: u32, times: &[u64]) {
        self.inner.put(loc, times);
    }

    fn clear(&mut self, first: u32, count: u32) {
        self.inner.clear(first, count);
    }
}
