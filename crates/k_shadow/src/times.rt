//! A list of times, one for each level.
ghost use Rattle.std.specs.Prelude.{◌≡◌, ◌-◌, ◌<◌, ◌≤◌, [], ◌∷◌, ◌++◌, length, take, replicate, slice_index};
ghost use Rattle.std.specs.List.{refill};

use smallvec::SmallVec;
use std::alloc::Global;
use std::marker::Model;

/// At most 32 times, one for each level, outermost first. They stand in the value itself, so no call takes memory.
#[derive(Drop)]
pub struct Times {
    items: SmallVec<u64, 32>,
}

impl Model for Times {
    ghost use Rattle.std.specs.Prelude.{List, ℕ, ◌≡◌, ◌≤◌, length};

    ghost Value = { List ℕ };

    ghost view = { λ t. t.items.items };

    ghost invariant = { λ t. (t.items.capacity ≡ 32) × (length t.items.items ≤ 32) };
}

impl Times {
    ghost use Rattle.std.specs.Borrow.{Lends, Array, sem, u64 as number};
    ghost use Rattle.k_shadow.specs.contracts.times.Times.{the_row};

    /// The empty list.
    #[inline]
    pub fn new(alloc: Global) -> Times
        ensures empty { result ≡ [] }
    {
        Times {
            items: SmallVec::new(alloc),
        }
    }

    /// Adds a time at the end.
    #[inline]
    pub fn push(&mut self, t: u64)
        requires { length self.old < 32 }
        ensures added { self.new ≡ self.old ++ t ∷ [] }
    {
        self.items.push_reserved(t);
    }

    /// Takes the last time away.
    #[inline]
    pub fn pop(&mut self)
        requires { 0 < length self.old }
        ensures { self.new ≡ take (length self.old - 1) self.old }
    {
        self.items.pop();
    }

    /// The time of a level.
    #[inline]
    pub fn get(&self, level: usize) -> u64
        requires { level < length self.now }
        ensures time { result ≡ slice_index self.now level }
    {
        self.items.as_slice()[level]
    }

    /// How many times there are.
    #[inline]
    pub fn len(&self) -> usize
        ensures count { result ≡ length self.now }
        ensures few { result ≤ 32 }
    {
        self.items.len()
    }

    /// All times.
    #[inline]
    pub fn as_slice(&self) -> &[u64]
        ensures times { result.now ≡ self.now }
        ensures few { length result.now ≤ 32 }
    {
        self.items.as_slice()
    }

    /// All times, for writing. One list is kept and filled again for each operation, since a new one costs more than the
    /// reads of a few levels.
    #[inline]
    pub fn as_mut_slice(&mut self) -> &mut [u64]
        ensures* writes_back { sem 𝓛 (Lends the_row (Array number 0) self.entry result (λ times. refill (length self.old) self.old times)) }
        ensures times { result.now ≡ self.old }
    {
        self.items.as_mut_slice()
    }

    /// Cuts the list to `len` times, or fills it up with 0.
    pub fn resize(&mut self, len: usize)
        requires { len ≤ 32 }
        ensures resized { self.new ≡ take len self.old ++ replicate (len - length self.old) 0 }
    {
        self.items.truncate(len);
        for _level in self.items.len()..len {
            self.items.push_reserved(0);
        }
    }
}
