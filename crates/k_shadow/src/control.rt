//! The control stack: the entry on which the operations depend now, and the entries that were saved.
ghost use Rattle.std.specs.Prelude.{◌≡◌, ℕ, ◌+◌, ◌-◌, ◌^◌, ◌<◌, ◌≤◌, [], ◌∷◌, ◌++◌, true, length, take, slice_index, slice_index_or, OnOk, OnErr};
ghost use Rattle.k_shadow.specs.Content.{at_levels};
ghost use Rattle.k_shadow.specs.Stack.{IsNew, level_entered, level_left};

use crate::lists::{copy_lanes, copy_times, copy_to, cut};
use crate::saved_rows::{add_row, copy_entry, read_lanes, write_entry, write_lanes};
use crate::{Row, Steps, TimeLanes, Times, Versions};
use k_num::NoMemory;
use std::alloc::Global;
use std::marker::Model;
use std::sync::ledger::Ledger;

/// The current control entry and the saved ones, each seen as one time for each live level. A saved entry keeps its times
/// under one stamp, so entering or leaving a level changes none. The current one has 0 at a level that was entered since,
/// so it is read without a test: it is read at each operation, and a level is entered far less often.
///
/// A row that was taken back stays behind the saved ones, so an entry that is saved as it was taken back, as in each turn
/// of a loop, is not written again.
#[derive(Drop)]
pub struct Control {
    /// At each live level.
    current: [u64; 32],
    /// The saved entries, and free rows behind them.
    rows: Vec<Row<32>>,
    /// How many entries are saved.
    count: usize,
    /// Whether the first free row has the current entry's times.
    kept: bool,
    versions: Versions,
}

impl Model for Control {
    ghost use Rattle.std.specs.Prelude.{◌≡◌, ◌≤◌, length, take, nat_lt, vec_len};
    ghost use Rattle.k_shadow.specs.Stack.{Stack};
    ghost use Rattle.k_shadow.specs.Numbers.{WereGiven};
    ghost use Rattle.k_shadow.specs.Rows.{stack_in, IsKept, WereStamped};

    ghost Value = { Stack };

    ghost view = { λ c. stack_in c.current (take c.count c.rows.items) c.versions (nat_lt c.count (vec_len c.rows)) };

    ghost invariant = { λ c. (length c.versions.live ≤ 32) × WereStamped c.versions.given c.rows.items × WereGiven c.versions.given c.versions.live × (c.count ≤ vec_len c.rows) × IsKept c.kept c.rows.items c.count c.versions.live c.current × (length c.current ≡ 32) };
}

impl Control {
    /// No entry is saved, no level is live, and the current entry reads 0 at every level to come.
    pub fn new(alloc: Global) -> Control
        ensures { IsNew result }
    {
        Control {
            current: [0; 32],
            rows: Vec::new(alloc),
            count: 0,
            kept: false,
            versions: Versions::new(),
        }
    }

    /// Enters a level, at which every entry has time 0.
    #[inline]
    pub fn enter(&mut self)
        requires shallow { length self.old.current < 32 }
        requires few { self.old.entries < 2 ^ 62 }
        ensures entered { self.new ≡ level_entered self.old }
    {
        let depth = self.versions.depth();
        self.current[depth] = 0;
        self.versions.enter();
    }

    /// Leaves the innermost level.
    #[inline]
    pub fn leave(&mut self)
        requires { 0 < length self.old.current }
        ensures left { self.new ≡ level_left self.old }
    {
        self.versions.leave();
    }

    /// Makes room for one `save`, which lasts until that `save`.
    #[inline]
    pub fn reserve(&mut self) -> Result<(), NoMemory>
        ensures ok { OnOk result (self.new ≡ record self.old { room = true }) }
        ensures err { OnErr result (self.new ≡ self.old) }
    {
        add_row(&mut self.rows, self.count)
    }

    /// Saves the current entry, which stays the current one.
    #[inline]
    pub fn save(&mut self)
        requires { self.old.room ≡ true }
        ensures saved { self.new.saved ≡ self.old.saved ++ self.old.current ∷ [] }
        ensures current { self.new.current ≡ self.old.current }
        ensures entries { self.new.entries ≡ self.old.entries }
    {
        write_entry(
            &mut self.rows,
            self.count,
            self.kept,
            &self.versions,
            &self.current,
        );
        self.count += 1;
        self.kept = false;
    }

    /// Saves the times of the live levels' lanes, as `save` does the current entry's.
    #[inline(always)]
    pub fn save_lanes<V: TimeLanes>(&mut self, times: V)
        requires room { self.old.room ≡ true }
        requires within { V.count ≤ 32 }
        requires shallow { length self.old.current ≤ V.count }
        ensures saved { self.new.saved ≡ self.old.saved ++ at_levels (length self.old.current) (V.time times) ∷ [] }
        ensures current { self.new.current ≡ self.old.current }
        ensures entries { self.new.entries ≡ self.old.entries }
    {
        write_lanes(&mut self.rows, self.count, &self.versions, times);
        self.count += 1;
        self.kept = false;
    }

    /// The newest saved entry's times, each below 2^32, in lanes. What the other lanes have is not told.
    #[inline(always)]
    pub fn saved_lanes<V: TimeLanes>(&self) -> V
        requires some { 0 < length self.now.saved }
        requires within { V.count ≤ 32 }
        requires shallow { length self.now.current ≤ V.count }
        requires few { self.now.entries < 2 ^ 32 }
        requires small { (k : ℕ) → k < length self.now.current → slice_index (slice_index_or self.now.saved (length self.now.saved - 1) []) k < 2 ^ 32 }
        ensures times { at_levels (length self.now.current) (V.time result) ≡ slice_index_or self.now.saved (length self.now.saved - 1) [] }
    {
        read_lanes(&self.rows, self.count - 1, &self.versions)
    }

    /// Makes these times the current entry.
    #[inline]
    pub fn under(&mut self, times: &Times)
        requires { length times.now ≡ length self.old.current }
        ensures current { self.new ≡ record self.old { current = times.now } }
    {
        self.put(times.as_slice());
    }

    /// `under` from the slice that is filled for each operation.
    #[inline]
    pub fn put(&mut self, times: &[u64])
        requires { length times.now ≡ length self.old.current }
        ensures current { self.new ≡ record self.old { current = times.now } }
    {
        self.kept = false;
        copy_times(&mut self.current, times);
    }

    /// Makes the times of the live levels' lanes the current entry.
    #[inline]
    pub fn set_lanes<V: TimeLanes>(&mut self, times: V)
        requires within { V.count ≤ 32 }
        requires shallow { length self.old.current ≤ V.count }
        ensures current { self.new ≡ record self.old { current = at_levels (length self.old.current) (V.time times) } }
    {
        self.kept = false;
        copy_lanes(&mut self.current, times);
    }

    /// Drops the newest saved entry.
    #[inline]
    pub fn keep(&mut self)
        requires { 0 < length self.old.saved }
        ensures saved { self.new.saved ≡ take (length self.old.saved - 1) self.old.saved }
        ensures current { self.new.current ≡ self.old.current }
        ensures entries { self.new.entries ≡ self.old.entries }
        ensures room { self.old.room ≡ true → self.new.room ≡ true }
    {
        self.count -= 1;
        self.kept = false;
    }

    /// Makes the newest saved entry the current one, and drops it.
    #[inline]
    pub fn back(&mut self)
        requires { 0 < length self.old.saved }
        ensures saved { self.old.saved ≡ self.new.saved ++ self.new.current ∷ [] }
        ensures levels { length self.new.current ≡ length self.old.current }
        ensures entries { self.new.entries ≡ self.old.entries }
        ensures room { self.old.room ≡ true → self.new.room ≡ true }
    {
        self.count -= 1;
        copy_entry(
            &self.rows,
            self.count,
            self.versions.live(),
            &mut self.current,
        );
        self.kept = true;
    }

    /// How many entries are saved.
    pub fn saved(&self) -> usize
        ensures count { result ≡ length self.now.saved }
    {
        self.count
    }

    /// The current entry's time at a level, in one step.
    #[inline]
    pub fn time<L: Ledger>(&self, level: usize, steps: &mut Steps<L>) -> u64
        requires { level < length self.now.current }
        ensures time { result ≡ slice_index self.now.current level }
        ensures step { steps.new ≡ steps.old + 1 }
    {
        steps.tick();
        let current = &self.current;
        current[level]
    }

    /// The current entry's times, in one step a level: `time` at every live level.
    #[inline]
    pub fn times<L: Ledger>(&self, steps: &mut Steps<L>) -> &[u64]
        ensures times { result.now ≡ self.now.current }
        ensures few { length result.now ≤ 32 }
        ensures steps { steps.new ≡ steps.old + length self.now.current }
    {
        let times = self.entry();
        steps.tick_each(times);
        times
    }

    /// Fills the list with the current entry's times, in one step a level: `time` at every live level.
    #[inline]
    pub fn fill<L: Ledger>(&self, times: &mut [u64], steps: &mut Steps<L>)
        requires { length times.old ≡ length self.now.current }
        ensures filled { times.new ≡ self.now.current }
        ensures steps { steps.new ≡ steps.old + length self.now.current }
    {
        copy_to(times, self.times(steps));
    }

    /// The current entry's times, each below 2^32, in lanes. What the other lanes have is not told. It takes no step: it is for whoever keeps the entry in
    /// lanes from then on, on which nothing depends yet.
    #[inline]
    pub fn lanes<V: TimeLanes>(&self) -> V
        requires within { V.count ≤ 32 }
        requires shallow { length self.now.current ≤ V.count }
        requires small { (k : ℕ) → k < length self.now.current → slice_index self.now.current k < 2 ^ 32 }
        ensures times { at_levels (length self.now.current) (V.time result) ≡ self.now.current }
    {
        cut(&self.current)
    }

    /// The current entry's times.
    #[inline]
    fn entry(&self) -> &[u64]
        ensures times { result.now ≡ self.now.current }
        ensures few { length result.now ≤ 32 }
    {
        &self.current[..self.versions.depth()]
    }

    /// How many levels were entered so far.
    #[inline]
    pub fn entries(&self) -> u64
        ensures { result ≡ self.now.entries }
    {
        self.versions.last_given()
    }
}
