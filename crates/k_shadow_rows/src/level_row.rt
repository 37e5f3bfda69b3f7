//! What operations read of one location's times, for however many levels and of however many bits, and what is written.
ghost use Rattle.std.specs.Prelude.{◌≡◌, ◌+◌, ◌<◌, ◌≤◌, ℕ, length, max, slice_index};
ghost use Rattle.k_shadow.specs.Numbers.{AreRising};
ghost use Rattle.k_shadow.specs.Rows.{row_time};

use k_shadow::{LevelRow, Steps, copy_behind, live_levels};
use std::sync::ledger::Ledger;

/// The time at a level, where the level's instance has that number, in one step: 0 at a level behind the last.
#[inline]
pub fn time<R: LevelRow, L: Ledger>(row: &R, number: u64, level: usize, steps: &mut Steps<L>) -> u64
    ensures time { result ≡ row_time (R.seen row.now) number level }
    ensures step { steps.new ≡ steps.old + 1 }
{
    if level >= row.levels() || number > row.stamp() {
        steps.tick();
        return 0;
    }
    row.time_within(level, steps)
}

/// At how many levels the row has a time that is live. The levels' instances have these numbers.
#[inline]
fn live_within<R: LevelRow>(row: &R, numbers: &[u64]) -> usize
    requires rising { AreRising 0 numbers.now }
    ensures few { result ≤ length numbers.now }
    ensures within { result ≤ R.width }
    ensures live { (k : ℕ) → k < result → row_time (R.seen row.now) (slice_index numbers.now k) k ≡ (R.seen row.now).time k }
    ensures gone { (k : ℕ) → result ≤ k → k < length numbers.now → row_time (R.seen row.now) (slice_index numbers.now k) k ≡ 0 }
{
    live_levels(numbers, row.stamp()).min(row.levels())
}

/// Raises each of these times to the row's at its level, where it is lower, in one step a level. The levels'
/// instances have these numbers.
#[inline]
pub fn raise<R: LevelRow, L: Ledger>(
    row: &R,
    numbers: &[u64],
    times: &mut [u64],
    steps: &mut Steps<L>,
)
    requires each { length times.old ≡ length numbers.now }
    requires rising { AreRising 0 numbers.now }
    ensures raised { (k : ℕ) → k < length numbers.now → slice_index times.new k ≡ max (slice_index times.old k) (row_time (R.seen row.now) (slice_index numbers.now k) k) }
    ensures steps { steps.new ≡ steps.old + length numbers.now }
{
    let levels = live_within(row, numbers);
    for level in 0..levels {
        times[level] = times[level].max(row.time_within(level, steps));
    }
    steps.tick_levels(numbers.len() - levels);
}

/// Fills the list with the later of two times at each level, `before`'s and the row's, in one step a level. The
/// levels' instances have these numbers.
#[inline]
pub fn latest<R: LevelRow, L: Ledger>(
    row: &R,
    numbers: &[u64],
    before: &[u64],
    times: &mut [u64],
    steps: &mut Steps<L>,
)
    requires each { length before.now ≡ length numbers.now }
    requires times { length times.old ≡ length numbers.now }
    requires rising { AreRising 0 numbers.now }
    ensures times { (k : ℕ) → k < length numbers.now → slice_index times.new k ≡ max (row_time (R.seen row.now) (slice_index numbers.now k) k) (slice_index before.now k) }
    ensures steps { steps.new ≡ steps.old + length numbers.now }
{
    let live = live_within(row, numbers);
    for level in 0..live {
        times[level] = row.time_within(level, steps).max(before[level]);
    }
    steps.tick_levels(numbers.len() - live);
    copy_behind(live, before, times);
}

/// Writes the times of the outermost levels, as many as there are, two at a time as `copy_behind` does.
#[inline]
pub fn write<R: LevelRow>(row: &mut R, stamp: u64, times: &[u64])
    requires few { length times.now ≤ R.width }
    requires small { (k : ℕ) → k < length times.now → slice_index times.now k ≤ R.greatest }
    ensures stamp { (R.seen row.new).stamp ≡ stamp }
    ensures times { (k : ℕ) → k < length times.now → (R.seen row.new).time k ≡ slice_index times.now k }
{
    row.set_stamp(stamp);
    let mut level = 0;
    while level < times.len() && times.len() - level > 1 {
        let time = times[level];
        let inner = times[level + 1];
        row.set_time(level, time);
        row.set_time(level + 1, inner);
        level += 2;
    }
    if level < times.len() {
        row.set_time(level, times[level]);
    }
}
