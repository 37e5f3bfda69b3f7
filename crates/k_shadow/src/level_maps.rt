//! A shadow as plain maps, by which the others are tested.
ghost use Rattle.std.specs.Prelude.{◌≡◌, ◌≤◌, vec_len};
ghost use Rattle.k_shadow.specs.Content.{empty};

use crate::maps::{add_maps, clear_in_all, drop_innermost, hold_in_all, set_in_all, time_in};
use crate::{Shadow, Steps};
use k_num::NoMemory;
use std::alloc::Global;
use std::collections::BTreeMap;
use std::sync::ledger::Ledger;

/// A shadow that keeps for each live level the pairs of location and time in the order of locations. Its limit is
/// 4,294,967,295.
#[derive(Drop)]
pub struct LevelMaps {
    /// The maps of the outermost live levels. An inner level has none until a location is reserved there.
    maps: Vec<BTreeMap<u32, u64>>,
    depth: usize,
    entries: u64,
    alloc: Global,
    ghost few: { vec_len maps ≤ depth },
    ghost shallow: { depth ≤ 32 },
}

impl LevelMaps {
    /// No level is live.
    pub fn new(alloc: Global) -> LevelMaps
        ensures empty { ⟦<LevelMaps as Shadow>⟧.content result ≡ empty 4294967295 }
    {
        LevelMaps {
            maps: Vec::new(alloc),
            depth: 0,
            entries: 0,
            alloc,
        }
    }
}

impl Shadow for LevelMaps {
    ghost use Rattle.std.specs.Prelude.{vec_len};
    ghost use Rattle.k_shadow.specs.Maps.{levels_in, StandsIn};

    ghost content = { λ s. record { levels = levels_in s.maps.items s.depth; entries = s.entries; limit = 4294967295 } };

    ghost room = { λ s loc most. (vec_len s.maps ≡ s.depth) × StandsIn s.maps.items loc };

    fn depth(&self) -> usize {
        self.depth
    }

    fn enter(&mut self) {
        self.depth += 1;
        self.entries += 1;
    }

    fn leave(&mut self) {
        drop_innermost(&mut self.maps, self.depth);
        self.depth -= 1;
    }

    fn reserve(&mut self, first: u32, count: u32) -> Result<(), NoMemory> {
        add_maps(self.alloc, &mut self.maps, self.depth)?;
        hold_in_all(&mut self.maps, first, count)
    }

    fn read<L: Ledger>(&self, loc: u32, level: usize, steps: &mut Steps<L>) -> u64 {
        match self.maps.get(level) {
            Some(map) => time_in(map, loc, steps),
            None => {
                steps.tick();
                0
            }
        }
    }

    fn put(&mut self, loc: u32, times: &[u64]) {
        set_in_all(&mut self.maps, loc, times);
    }

    fn clear(&mut self, first: u32, count: u32) {
        clear_in_all(&mut self.maps, first, count);
    }
}
