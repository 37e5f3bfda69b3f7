//! One location's times, with one stamp: the one place where times of rows are read, in a step each.
ghost use Rattle.std.specs.Prelude.{◌≡◌, ◌≢◌, ◌+◌, ◌^◌, ◌<◌, ◌≤◌, ℕ, length, slice_index};
ghost use Rattle.k_shadow.specs.Rows.{Seen, seen_narrow, row_time, unwritten};

use crate::lists::{copy_behind, copy_lanes, cut};
use crate::{Steps, TimeLanes};
use std::marker::Model;
use std::sync::ledger::Ledger;

/// The times of one location, one for each of the N outermost levels, and the number of the last entry into a level
/// before they were written. A level's time is live exactly where the level's instance has a number that is no greater.
#[derive(Clone, Copy)]
pub struct Row<const N: usize> {
    /// The last instance number that was given when the times were written; 0 where they never were.
    stamp: u64,
    /// The times, in latencies, outermost level first.
    times: [u64; N],
}

/// A row none of whose times is above 4,294,967,295.
#[derive(Clone, Copy)]
pub struct NarrowRow<const N: usize> {
    /// As in a `Row`.
    stamp: u64,
    /// As in a `Row`.
    times: [u32; N],
}

/// A row's time on its way into another row, by which no operation reads it: only a row gives it, and only a row takes it.
#[derive(Drop)]
pub struct Carried {
    time: u64,
}

impl Model for Carried {
    ghost use Rattle.std.specs.Prelude.{ℕ};

    ghost Value = { ℕ };

    ghost view = { λ c. c.time };
}

/// The times of one location, one for each of the outermost levels, and the number of the last entry into a level before
/// they were written.
pub trait LevelRow: Copy {
    /// Its stamp, and the time of each level, 0 behind the last.
    ghost seen: { Self → Seen };

    /// The row that was never written.
    ghost blank: { Self };

    /// For how many levels it has times.
    ghost width: { ℕ };

    /// The greatest time that it can have.
    ghost greatest: { ℕ };

    /// A row that was never written.
    fn blank() -> Self
        ensures { result ≡ blank };

    /// For how many levels the row has times.
    fn levels(&self) -> usize
        ensures count { result ≡ width }
        ensures behind { (level : ℕ) → width ≤ level → (seen self.now).time level ≡ 0 };

    /// The last instance number that was given when the times were written; 0 where they never were.
    fn stamp(&self) -> u64
        ensures { result ≡ (seen self.now).stamp };

    /// The time at a level, whether it is live or not, in one step.
    fn time_within<L: Ledger>(&self, level: usize, steps: &mut Steps<L>) -> u64
        requires { level < width }
        ensures time { result ≡ (seen self.now).time level }
        ensures most { result ≤ greatest }
        ensures step { steps.new ≡ steps.old + 1 };

    /// The time at a level, for another row.
    fn carried(&self, level: usize) -> Carried
        requires { level < width }
        ensures time { result ≡ (seen self.now).time level }
        ensures most { result ≤ greatest };

    /// Gives the row a stamp, and leaves its times.
    fn set_stamp(&mut self, stamp: u64)
        ensures stamp { (seen self.new).stamp ≡ stamp }
        ensures times { (level : ℕ) → (seen self.new).time level ≡ (seen self.old).time level };

    /// Gives the row a time at a level.
    fn set_time(&mut self, level: usize, time: u64)
        requires within { level < width }
        requires small { time ≤ greatest }
        ensures stamp { (seen self.new).stamp ≡ (seen self.old).stamp }
        ensures here { (seen self.new).time level ≡ time }
        ensures others { (at : ℕ) → at ≢ level → (seen self.new).time at ≡ (seen self.old).time at };

    /// Gives the row another row's time at a level.
    fn set_carried(&mut self, level: usize, time: Carried)
        requires within { level < width }
        requires small { time ≤ greatest }
        ensures stamp { (seen self.new).stamp ≡ (seen self.old).stamp }
        ensures here { (seen self.new).time level ≡ time }
        ensures others { (at : ℕ) → at ≢ level → (seen self.new).time at ≡ (seen self.old).time at };

    /// The row that was never written is seen so.
    ghost never: { seen blank ≡ unwritten };
}

impl<const N: usize> Row<N> {
    ghost use Rattle.k_shadow.specs.Rows.{blank_row, row_time, seen};

    /// A row that was never written.
    #[inline]
    pub fn blank() -> Row<N>
        ensures blank { result ≡ blank_row N }
    {
        Row {
            stamp: 0,
            times: [0; N],
        }
    }

    /// The time at a level that the row has, where the level's instance has that number.
    #[inline]
    fn time_of(&self, number: u64, level: usize) -> u64
        requires { level < N }
        ensures time { result ≡ row_time (seen self.now) number level }
    {
        if number <= self.stamp {
            self.times[level]
        } else {
            0
        }
    }

    /// Copies the row's times to the front of a list. The levels' instances have these numbers.
    #[inline]
    pub(crate) fn copy_to(&self, numbers: &[u64], to: &mut [u64])
        requires few { length numbers.now ≤ N }
        requires room { length numbers.now ≤ length to.old }
        ensures { (k : ℕ) → k < length numbers.now → slice_index to.new k ≡ row_time (seen self.now) (slice_index numbers.now k) k }
    {
        for (level, number) in numbers.iter().enumerate() {
            to[level] = self.time_of(*number, level);
        }
    }

    /// Writes the times of the outermost levels, as many as there are.
    #[inline]
    pub fn write(&mut self, stamp: u64, times: &[u64])
        requires { length times.now ≤ N }
        ensures stamp { self.new.stamp ≡ stamp }
        ensures times { (k : ℕ) → k < length times.now → slice_index self.new.times k ≡ slice_index times.now k }
    {
        self.stamp = stamp;
        copy_behind(0, times, &mut self.times);
    }
}

impl Row<32> {
    ghost use Rattle.std.specs.Prelude.{◌%◌, nat_le, if◌then◌else◌};

    /// Writes the times of lanes.
    #[inline(always)]
    pub(crate) fn write_lanes<V: TimeLanes>(&mut self, stamp: u64, times: V)
        requires { V.count ≤ 32 }
        ensures stamp { self.new.stamp ≡ stamp }
        ensures times { (k : ℕ) → k < V.count → slice_index self.new.times k ≡ V.time times k }
    {
        self.stamp = stamp;
        copy_lanes(&mut self.times, times);
    }

    /// The times, modulo 2^32, in the lanes whose start is not above the stamp, modulo 2^32, and 0 in the others.
    #[inline(always)]
    pub(crate) fn begun<V: TimeLanes>(&self, starts: &[u32; 32]) -> V
        requires within { V.count ≤ 32 }
        requires stamp { self.now.stamp < 2 ^ 32 }
        ensures times { (k : ℕ) → k < V.count → V.time result k ≡ (if nat_le (slice_index starts.now k) self.now.stamp then slice_index self.now.times k % 2 ^ 32 else 0) }
    {
        let times: V = cut(&self.times);
        times.begun(V::of(starts), self.stamp as u32)
    }
}

impl<const N: usize> NarrowRow<N> {
    ghost use Rattle.std.specs.Prelude.{max};

    /// The later of two times in each lane of the `depth` outermost levels, the lane's and the row's, in one step a level. The
    /// levels' instances have the numbers `starts`. What the other lanes have then is not told.
    #[inline(always)]
    pub fn later_lanes<V: TimeLanes, L: Ledger>(
        &self,
        starts: &[u32; 32],
        depth: usize,
        before: V,
        steps: &mut Steps<L>,
    ) -> V
        requires within { V.count ≤ 32 }
        requires shallow { depth ≤ V.count }
        requires stamp { self.now.stamp < 2 ^ 32 }
        ensures times { (k : ℕ) → k < depth → V.time result k ≡ max (V.time before k) (row_time (seen_narrow self.now) (slice_index starts.now k) k) }
        ensures steps { steps.new ≡ steps.old + depth }
    {
        steps.tick_levels(depth);
        let live = V::of(&self.times).begun(V::of(starts), self.stamp as u32);
        before.later(live)
    }

    /// Writes the times of lanes, as many as there are lanes and levels.
    #[inline(always)]
    pub fn write_lanes<V: TimeLanes>(&mut self, stamp: u64, times: V)
        ensures stamp { self.new.stamp ≡ stamp }
        ensures times { (k : ℕ) → k < N → k < V.count → slice_index self.new.times k ≡ V.time times k }
    {
        self.stamp = stamp;
        times.copy_to(&mut self.times);
    }
}

impl<const N: usize> LevelRow for Row<N> {
    ghost use Rattle.k_shadow.specs.Rows.{blank_row, seen as seen_row, unwritten_seen};

    ghost seen = { λ row. seen_row row };

    ghost blank = { blank_row N };

    ghost width = { N };

    ghost greatest = { 18446744073709551615 };

    #[inline(always)]
    fn blank() -> Row<N> {
        Row {
            stamp: 0,
            times: [0; N],
        }
    }

    #[inline(always)]
    fn levels(&self) -> usize {
        let times: &[u64] = &self.times;
        times.len()
    }

    #[inline(always)]
    fn stamp(&self) -> u64 {
        self.stamp
    }

    #[inline(always)]
    fn time_within<L: Ledger>(&self, level: usize, steps: &mut Steps<L>) -> u64 {
        steps.tick();
        self.times[level]
    }

    #[inline(always)]
    fn carried(&self, level: usize) -> Carried {
        let time = self.times[level];
        Carried { time }
    }

    #[inline(always)]
    fn set_stamp(&mut self, stamp: u64) {
        self.stamp = stamp;
    }

    #[inline(always)]
    fn set_time(&mut self, level: usize, time: u64) {
        self.times[level] = time;
    }

    #[inline(always)]
    fn set_carried(&mut self, level: usize, time: Carried) {
        self.times[level] = time.time;
    }

    ghost never = { unwritten_seen N };
}

impl<const N: usize> LevelRow for NarrowRow<N> {
    ghost use Rattle.k_shadow.specs.Rows.{blank_narrow, seen_narrow, unwritten_seen};

    ghost seen = { λ row. seen_narrow row };

    ghost blank = { blank_narrow N };

    ghost width = { N };

    ghost greatest = { 4294967295 };

    #[inline(always)]
    fn blank() -> NarrowRow<N> {
        NarrowRow {
            stamp: 0,
            times: [0; N],
        }
    }

    #[inline(always)]
    fn levels(&self) -> usize {
        let times: &[u32] = &self.times;
        times.len()
    }

    #[inline(always)]
    fn stamp(&self) -> u64 {
        self.stamp
    }

    #[inline(always)]
    fn time_within<L: Ledger>(&self, level: usize, steps: &mut Steps<L>) -> u64 {
        steps.tick();
        self.times[level] as u64
    }

    #[inline(always)]
    fn carried(&self, level: usize) -> Carried {
        let time = self.times[level] as u64;
        Carried { time }
    }

    #[inline(always)]
    fn set_stamp(&mut self, stamp: u64) {
        self.stamp = stamp;
    }

    #[inline(always)]
    fn set_time(&mut self, level: usize, time: u64) {
        self.times[level] = time as u32;
    }

    #[inline(always)]
    fn set_carried(&mut self, level: usize, time: Carried) {
        self.times[level] = time.time as u32;
    }

    ghost never = { unwritten_seen N };
}
