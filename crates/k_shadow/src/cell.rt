//! A place outside memory that is written and read.
ghost use Rattle.std.specs.Prelude.{◌≡◌, ◌+◌, ◌<◌, ◌≤◌, [], ◌∷◌, ◌++◌, length};
ghost use Rattle.k_shadow.specs.Stack.{without_last};

use crate::Steps;
use crate::lists::copy_times;
use std::marker::Model;
use std::sync::ledger::Ledger;

/// The times of one location that stands in no shadow, as those of a program's input and output, one for each live
/// level. A level that is entered has 0, so times are read without a test.
#[derive(Drop)]
pub struct Cell {
    times: [u64; 32],
    depth: usize,
}

impl Model for Cell {
    ghost use Rattle.std.specs.Prelude.{List, ℕ, ◌≤◌, take};

    ghost Value = { List ℕ };

    ghost view = { λ c. take c.depth c.times };

    ghost invariant = { λ c. c.depth ≤ 32 };
}

impl Cell {
    /// No level is live.
    #[inline]
    pub fn new() -> Cell
        ensures none { result ≡ [] }
    {
        Cell {
            times: [0; 32],
            depth: 0,
        }
    }

    /// Enters a level, at which the time is 0.
    #[inline]
    pub fn enter(&mut self)
        requires { length self.old < 32 }
        ensures entered { self.new ≡ self.old ++ 0 ∷ [] }
    {
        self.times[self.depth] = 0;
        self.depth += 1;
    }

    /// Leaves the innermost level.
    #[inline]
    pub fn leave(&mut self)
        requires { 0 < length self.old }
        ensures left { self.new ≡ without_last self.old }
    {
        self.depth -= 1;
    }

    /// The times at all live levels, in one step a level.
    #[inline]
    pub fn times<L: Ledger>(&self, steps: &mut Steps<L>) -> &[u64]
        ensures times { result.now ≡ self.now }
        ensures few { length result.now ≤ 32 }
        ensures steps { steps.new ≡ steps.old + length self.now }
    {
        let times = &self.times[..self.depth];
        steps.tick_each(times);
        times
    }

    /// Sets the time at every live level.
    #[inline]
    pub fn put(&mut self, times: &[u64])
        requires { length times.now ≡ length self.old }
        ensures times { self.new ≡ times.now }
    {
        copy_times(&mut self.times, times);
    }
}
