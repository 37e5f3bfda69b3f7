//! Plain maps that note the times that are put, and that now and then refuse room.
ghost use Rattle.std.specs.Prelude.{◌≡◌};
ghost use Rattle.k_shadow.specs.Content.{empty};

use k_num::NoMemory;
use k_shadow::{LevelMaps, Shadow, Steps};
use std::alloc::Global;
use std::cell::RefCell;
use std::sync::ledger::Ledger;

/// The times that were put, at each live level, one list for each location.
pub type Puts = RefCell<Vec<Vec<u64>>>;

/// How many requests for room are granted between two that are refused.
const GRANTED: u32 = 4;

/// Plain maps, with the list in which they note.
#[derive(Drop)]
pub struct Watched<'a> {
    inner: LevelMaps,
    alloc: Global,
    puts: &'a Puts,
    granted: u32,
}

impl<'a> Watched<'a> {
    pub fn new(alloc: Global, puts: &'a Puts) -> Watched<'a>
        ensures empty { ⟦<Watched<'a> as Shadow>⟧.content result ≡ empty 4294967295 }
    {
        Watched {
            inner: LevelMaps::new(alloc),
            alloc,
            puts,
            granted: 0,
        }
    }
}

/// Notes times. Where no memory is found for them, they are not compared.
fn note(alloc: Global, puts: &Puts, times: &[u64]) {
    if let Ok(mut list) = puts.try_borrow_mut() {
        if let Ok(own) = Vec::from_slice(alloc, times) {
            let _ = list.push(own);
        }
    }
}

impl Shadow for Watched<'_> {
    ghost content = { λ s. ⟦<LevelMaps as Shadow>⟧.content s.inner };

    ghost room = { λ s loc most. ⟦<LevelMaps as Shadow>⟧.room s.inner loc most };

    fn depth(&self) -> usize {
        self.inner.depth()
    }

    fn enter(&mut self) {
        self.inner.enter();
    }

    fn leave(&mut self) {
        self.inner.leave();
    }

    fn reserve(&mut self, first: u32, count: u32) -> Result<(), NoMemory> {
        if self.granted >= GRANTED {
            self.granted = 0;
            return Err(NoMemory);
        }
        self.granted += 1;
        self.inner.reserve(first, count)
    }

    fn read<L: Ledger>(&self, loc: u32, level: usize, steps: &mut Steps<L>) -> u64 {
        self.inner.read(loc, level, steps)
    }

    fn put(&mut self, loc: u32, times: &[u64]) {
        note(self.alloc, self.puts, times);
        self.inner.put(loc, times);
    }

    fn clear(&mut self, first: u32, count: u32) {
        self.inner.clear(first, count);
    }
}
