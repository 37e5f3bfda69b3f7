//! The contract of shadow storage.
ghost use Rattle.std.specs.Prelude.{◌≡◌, ℕ, ◌+◌, ◌*◌, ◌^◌, ◌<◌, ◌≤◌, length, max, slice_index, OnOk};
ghost use Rattle.k_shadow.specs.Rooms.{delayed, HasRoomFor};
ghost use Rattle.k_shadow.specs.Content.{Content, depth, time_at, after_none, after_one, after_two, entered, level_dropped, written, written_by, cleared};

use crate::lists::{no_times, widened};
use crate::{Steps, TimeLanes, Times, advance, raise_each, times_after};
use k_num::NoMemory;
use std::sync::ledger::Ledger;

/// A time for each location and live level, in latencies: at which weight of the paths since the level's instance
/// began the location got its value.
///
/// It is seen as a list with one map from location to time for each live level. Every location that is given to a
/// call is below the shadow's limit.
pub trait Shadow: Drop {
    /// The maps, the count of entries into levels so far, and the limit.
    ghost content: { Self → Content };

    /// The location may be written without taking memory, with times of at most that much.
    ghost room: { Self → ℕ → ℕ → Type 0 };

    /// How many levels are live.
    fn depth(&self) -> usize
        ensures count { result ≡ depth (content self.now) };

    /// Enters a level, at which every location has time 0. Room for locations is lost.
    fn enter(&mut self)
        requires shallow { depth (content self.old) < 32 }
        requires few { (content self.old).entries < 2 ^ 62 }
        ensures content { content self.new ≡ entered (content self.old) };

    /// Leaves the innermost level. Room for locations is lost.
    fn leave(&mut self)
        requires { 0 < depth (content self.old) }
        ensures content { content self.new ≡ level_dropped (content self.old) };

    /// Makes room for the `count` locations from `first` on, whatever their times are, which lasts until a level is
    /// entered or left. A refusal may have made room for some of them.
    fn reserve(&mut self, first: u32, count: u32) -> Result<(), NoMemory>
        requires { first + count ≤ (content self.old).limit }
        ensures content { content self.new ≡ content self.old }
        ensures room { OnOk result ((loc most : ℕ) → first ≤ loc → loc < first + count → most < 2 ^ 64 → room self.new loc most) }
        ensures kept { (loc most : ℕ) → room self.old loc most → room self.new loc most };

    /// `reserve` for times of at most `most` latencies: a shadow may keep such times in less memory.
    fn admit(&mut self, first: u32, count: u32, most: u64) -> Result<(), NoMemory>
        requires { first + count ≤ (content self.old).limit }
        ensures content { content self.new ≡ content self.old }
        ensures room { OnOk result ((loc : ℕ) → first ≤ loc → loc < first + count → room self.new loc most) }
        ensures kept { (loc most : ℕ) → room self.old loc most → room self.new loc most }
    {
        self.reserve(first, count)
    }

    /// The time of a location at a level, in one step.
    fn read<L: Ledger>(&self, loc: u32, level: usize, steps: &mut Steps<L>) -> u64
        requires below { loc < (content self.now).limit }
        requires live { level < depth (content self.now) }
        ensures time { result ≡ time_at (content self.now) level loc }
        ensures step { steps.new ≡ steps.old + 1 };

    /// Raises each of these times to the location's at its level, where it is lower, in one step a level: `read` at
    /// every live level, for which the location is looked up once.
    fn raise<L: Ledger>(&self, loc: u32, times: &mut [u64], steps: &mut Steps<L>)
        requires below { loc < (content self.now).limit }
        requires each { length times.old ≡ depth (content self.now) }
        ensures raised { (level : ℕ) → level < depth (content self.now) → slice_index times.new level ≡ max (slice_index times.old level) (time_at (content self.now) level loc) }
        ensures steps { steps.new ≡ steps.old + depth (content self.now) }
    {
        for level in 0..times.len() {
            times[level] = times[level].max(self.read(loc, level, steps));
        }
    }

    /// Fills the list with the later of two times at each level, `before`'s and the location's, in one step a level.
    fn latest<L: Ledger>(&self, loc: u32, before: &[u64], times: &mut [u64], steps: &mut Steps<L>)
        requires below { loc < (content self.now).limit }
        requires each { length before.now ≡ depth (content self.now) }
        requires times { length times.old ≡ depth (content self.now) }
        ensures times { (level : ℕ) → level < depth (content self.now) → slice_index times.new level ≡ max (time_at (content self.now) level loc) (slice_index before.now level) }
        ensures steps { steps.new ≡ steps.old + depth (content self.now) }
    {
        for level in 0..times.len() {
            times[level] = self.read(loc, level, steps).max(before[level]);
        }
    }

    /// The later of two times in the lane of each live level, the lane's and the location's, in one step a level. What the
    /// other lanes have then is not told.
    fn later_lanes<V: TimeLanes, L: Ledger>(&self, loc: u32, before: V, steps: &mut Steps<L>) -> V
        requires below { loc < (content self.now).limit }
        requires within { V.count ≤ 32 }
        requires shallow { depth (content self.now) ≤ V.count }
        requires few { (content self.now).entries < 2 ^ 32 }
        requires small { (level : ℕ) → level < depth (content self.now) → time_at (content self.now) level loc < 2 ^ 32 }
        ensures times { (level : ℕ) → level < depth (content self.now) → V.time result level ≡ max (V.time before level) (time_at (content self.now) level loc) }
        ensures steps { steps.new ≡ steps.old + depth (content self.now) }
    {
        let mut times = before;
        for level in 0..self.depth() {
            let time = self.read(loc, level, steps) as u32;
            times = times.with_time(level, times.at(level).max(time));
        }
        times
    }

    /// Fills the list with the times of an operation that waits for these times and for a location's: at each live level
    /// the later, and the latency more, modulo 2^64, in one step a level. Raises each level's path to them.
    fn times_after_one<L: Ledger>(
        &self,
        from: u32,
        before: &[u64],
        latency: u64,
        times: &mut [u64],
        paths: &mut [u64],
        steps: &mut Steps<L>,
    )
        requires below { from < (content self.now).limit }
        requires each { length before.now ≡ depth (content self.now) }
        requires times { length times.old ≡ depth (content self.now) }
        requires paths { length paths.old ≡ depth (content self.now) }
        ensures times { (level : ℕ) → level < depth (content self.now) → slice_index times.new level ≡ after_one (content self.now) from before.now latency level }
        ensures paths { (level : ℕ) → level < depth (content self.now) → slice_index paths.new level ≡ max (slice_index paths.old level) (after_one (content self.now) from before.now latency level) }
        ensures steps { steps.new ≡ steps.old + depth (content self.now) }
    {
        self.latest(from, before, times, steps);
        advance(times, latency, paths);
    }

    /// `times_after_one` with two locations, in two steps a level.
    fn times_after_two<L: Ledger>(
        &self,
        left: u32,
        right: u32,
        before: &[u64],
        latency: u64,
        times: &mut [u64],
        paths: &mut [u64],
        steps: &mut Steps<L>,
    )
        requires left { left < (content self.now).limit }
        requires right { right < (content self.now).limit }
        requires each { length before.now ≡ depth (content self.now) }
        requires times { length times.old ≡ depth (content self.now) }
        requires paths { length paths.old ≡ depth (content self.now) }
        ensures times { (level : ℕ) → level < depth (content self.now) → slice_index times.new level ≡ after_two (content self.now) left right before.now latency level }
        ensures paths { (level : ℕ) → level < depth (content self.now) → slice_index paths.new level ≡ max (slice_index paths.old level) (after_two (content self.now) left right before.now latency level) }
        ensures steps { steps.new ≡ steps.old + 2 * depth (content self.now) }
    {
        self.latest(left, before, times, steps);
        self.raise(right, times, steps);
        advance(times, latency, paths);
    }

    /// Gives a location the times of an operation that waits for these times alone, and raises each level's path to
    /// them. It takes no step.
    fn write_after(&mut self, before: &[u64], latency: u64, to: u32, paths: &mut [u64])
        requires below { to < (content self.old).limit }
        requires few { length before.now ≤ 32 }
        requires each { length before.now ≡ depth (content self.old) }
        requires paths { length paths.old ≡ depth (content self.old) }
        requires room { HasRoomFor (room self.old to) (depth (content self.old)) (λ level. delayed (slice_index before.now level) latency) }
        ensures content { content self.new ≡ written_by to (after_none before.now latency) (content self.old) }
        ensures paths { (level : ℕ) → level < depth (content self.old) → slice_index paths.new level ≡ max (slice_index paths.old level) (after_none before.now latency level) }
        ensures kept { (at most : ℕ) → room self.old at most → room self.new at most }
    {
        let mut times = no_times();
        times_after(before, latency, &mut times[..before.len()], paths);
        self.put(to, &times[..before.len()]);
    }

    /// Gives a location the times of `times_after_one`, and raises each level's path to them, in one step a level.
    fn write_after_one<L: Ledger>(
        &mut self,
        from: u32,
        before: &[u64],
        latency: u64,
        to: u32,
        paths: &mut [u64],
        steps: &mut Steps<L>,
    )
        requires from { from < (content self.old).limit }
        requires below { to < (content self.old).limit }
        requires few { length before.now ≤ 32 }
        requires each { length before.now ≡ depth (content self.old) }
        requires paths { length paths.old ≡ depth (content self.old) }
        requires room { HasRoomFor (room self.old to) (depth (content self.old)) (λ level. delayed (max (time_at (content self.old) level from) (slice_index before.now level)) latency) }
        ensures content { content self.new ≡ written_by to (after_one (content self.old) from before.now latency) (content self.old) }
        ensures paths { (level : ℕ) → level < depth (content self.old) → slice_index paths.new level ≡ max (slice_index paths.old level) (after_one (content self.old) from before.now latency level) }
        ensures steps { steps.new ≡ steps.old + depth (content self.old) }
        ensures kept { (at most : ℕ) → room self.old at most → room self.new at most }
    {
        let mut times = no_times();
        let slots = &mut times[..before.len()];
        self.times_after_one(from, before, latency, slots, paths, steps);
        self.put(to, &times[..before.len()]);
    }

    /// Gives a location the times of `times_after_two`, and raises each level's path to them, in two steps a level.
    fn write_after_two<L: Ledger>(
        &mut self,
        left: u32,
        right: u32,
        before: &[u64],
        latency: u64,
        to: u32,
        paths: &mut [u64],
        steps: &mut Steps<L>,
    )
        requires left { left < (content self.old).limit }
        requires right { right < (content self.old).limit }
        requires below { to < (content self.old).limit }
        requires few { length before.now ≤ 32 }
        requires each { length before.now ≡ depth (content self.old) }
        requires paths { length paths.old ≡ depth (content self.old) }
        requires room { HasRoomFor (room self.old to) (depth (content self.old)) (λ level. delayed (max (max (time_at (content self.old) level left) (time_at (content self.old) level right)) (slice_index before.now level)) latency) }
        ensures content { content self.new ≡ written_by to (after_two (content self.old) left right before.now latency) (content self.old) }
        ensures paths { (level : ℕ) → level < depth (content self.old) → slice_index paths.new level ≡ max (slice_index paths.old level) (after_two (content self.old) left right before.now latency level) }
        ensures steps { steps.new ≡ steps.old + 2 * depth (content self.old) }
        ensures kept { (at most : ℕ) → room self.old at most → room self.new at most }
    {
        let mut times = no_times();
        let slots = &mut times[..before.len()];
        self.times_after_two(left, right, before, latency, slots, paths, steps);
        self.put(to, &times[..before.len()]);
    }

    /// Gives a location another's times, as a parameter gets its argument's, and raises each of these times to them, in one
    /// step a level.
    fn pass<L: Ledger>(&mut self, from: u32, to: u32, times: &mut [u64], steps: &mut Steps<L>)
        requires from { from < (content self.old).limit }
        requires below { to < (content self.old).limit }
        requires few { length times.old ≤ 32 }
        requires each { length times.old ≡ depth (content self.old) }
        requires room { HasRoomFor (room self.old to) (depth (content self.old)) (λ level. time_at (content self.old) level from) }
        ensures content { content self.new ≡ written_by to (λ level. time_at (content self.old) level from) (content self.old) }
        ensures raised { (level : ℕ) → level < depth (content self.old) → slice_index times.new level ≡ max (slice_index times.old level) (time_at (content self.old) level from) }
        ensures steps { steps.new ≡ steps.old + depth (content self.old) }
        ensures kept { (at most : ℕ) → room self.old at most → room self.new at most }
    {
        let mut passed = no_times();
        for level in 0..times.len() {
            passed[level] = self.read(from, level, steps);
        }
        raise_each(times, &passed[..times.len()]);
        self.put(to, &passed[..times.len()]);
    }

    /// Sets a location's time at every live level.
    fn write(&mut self, loc: u32, times: &Times)
        requires below { loc < (content self.old).limit }
        requires each { length times.now ≡ depth (content self.old) }
        requires room { room self.old loc 18446744073709551615 }
        ensures content { content self.new ≡ written loc times.now (content self.old) }
        ensures kept { (at most : ℕ) → room self.old at most → room self.new at most }
    {
        let each = times.as_slice();
        self.put(loc, each);
    }

    /// `write` from the slice that is filled for each operation.
    fn put(&mut self, loc: u32, times: &[u64])
        requires below { loc < (content self.old).limit }
        requires each { length times.now ≡ depth (content self.old) }
        requires room { HasRoomFor (room self.old loc) (depth (content self.old)) (slice_index times.now) }
        ensures content { content self.new ≡ written loc times.now (content self.old) }
        ensures kept { (at most : ℕ) → room self.old at most → room self.new at most };

    /// Gives a location the time of each live level's lane.
    fn put_lanes<V: TimeLanes>(&mut self, loc: u32, times: V)
        requires below { loc < (content self.old).limit }
        requires within { V.count ≤ 32 }
        requires shallow { depth (content self.old) ≤ V.count }
        requires room { room self.old loc 4294967295 }
        ensures content { content self.new ≡ written_by loc (V.time times) (content self.old) }
        ensures kept { (at most : ℕ) → room self.old at most → room self.new at most }
    {
        let depth = self.depth();
        let each = widened(times);
        self.put(loc, &each[..depth]);
    }

    /// Makes the time of the `count` locations from `first` on 0 at every live level.
    fn clear(&mut self, first: u32, count: u32)
        requires { first + count ≤ (content self.old).limit }
        ensures content { content self.new ≡ cleared first count (content self.old) }
        ensures kept { (at most : ℕ) → room self.old at most → room self.new at most };
}
