//! The times that an operation gives to a row, where its operands stand among the same rows, of whatever kind.
ghost use Rattle.std.specs.Prelude.{◌≡◌, ◌≢◌, ◌+◌, ◌-◌, ◌*◌, ◌%◌, ◌^◌, ◌<◌, ◌≤◌, ℕ, true, false, length, max, slice_index};
ghost use Rattle.k_shadow.specs.Content.{after_none, time_after};
ghost use Rattle.k_shadow.specs.Numbers.{AreRising};
ghost use Rattle.k_shadow.specs.Rooms.{delayed};
ghost use Rattle.k_shadow.specs.Rows.{row_time};
ghost use Rattle.k_shadow_rows.specs.Given.{AreGiven, AreRaised, IsGiven, after_row, after_rows, after_live_row, after_live_rows};
ghost use Rattle.k_shadow_rows.specs.Rows.{rows_at};

use k_shadow::{LevelRow, Steps};
use std::sync::ledger::Ledger;

/// The time of an operation that waits for this time.
#[inline(always)]
fn after(before: u64, latency: u64) -> u64
    ensures { result ≡ (before + latency) % 2 ^ 64 }
{
    before.wrapping_add(latency)
}

/// The time at a level of an operation that waits for this time and for a row's, in one step.
#[inline(always)]
fn after_one<R: LevelRow, L: Ledger>(
    rows: &[R],
    from: usize,
    level: usize,
    before: u64,
    latency: u64,
    steps: &mut Steps<L>,
) -> u64
    requires within { from < length rows.now }
    requires shallow { level < R.width }
    ensures time { result ≡ (max ((rows_at R.seen R.blank rows.now from).time level) before + latency) % 2 ^ 64 }
    ensures step { steps.new ≡ steps.old + 1 }
{
    let row = &rows[from];
    row.time_within(level, steps)
        .max(before)
        .wrapping_add(latency)
}

/// The time at a level of an operation that waits for this time and for two rows', in two steps.
#[inline(always)]
fn after_both<R: LevelRow, L: Ledger>(
    rows: &[R],
    left: usize,
    right: usize,
    level: usize,
    before: u64,
    latency: u64,
    steps: &mut Steps<L>,
) -> u64
    requires left { left < length rows.now }
    requires right { right < length rows.now }
    requires shallow { level < R.width }
    ensures step { steps.new ≡ steps.old + 2 }
    ensures time { result ≡ time_after ((rows_at R.seen R.blank rows.now left).time level) ((rows_at R.seen R.blank rows.now right).time level) before latency }
{
    let left_row = &rows[left];
    let right_row = &rows[right];
    let left_time = left_row.time_within(level, steps);
    let right_time = right_row.time_within(level, steps);
    left_time.max(right_time).max(before).wrapping_add(latency)
}

/// Gives a row a time at a level, and raises the level's path to it.
#[inline(always)]
fn give<R: LevelRow>(rows: &mut [R], to: usize, level: usize, time: u64, paths: &mut [u64])
    requires within { to < length rows.old }
    requires shallow { level < R.width }
    requires small { time ≤ R.greatest }
    requires live { level < length paths.old }
    ensures given { AreGiven (λ _. time) to level (level + 1) (rows_at R.seen R.blank rows.old) (rows_at R.seen R.blank rows.new) paths.old paths.new }
    ensures size { length rows.new ≡ length rows.old }
{
    let row = &mut rows[to];
    row.set_time(level, time);
    paths[level] = paths[level].max(time);
}

/// Tells whether what was written when that stamp was given is live at a level. The levels' instances have these numbers.
#[inline(always)]
#[tactic(auto, using(crate::proofs::Ranges::some_stamp, crate::proofs::Ranges::gone_behind))]
fn is_live(numbers: &[u64], level: usize, stamp: u64) -> bool
    requires level { level < length numbers.now }
    requires rising { AreRising 0 numbers.now }
    ensures live { result ≡ true → slice_index numbers.now level ≤ stamp }
    ensures some { result ≡ true → 0 < stamp }
    ensures gone { result ≡ false → (k : ℕ) → level ≤ k → k < length numbers.now → stamp < slice_index numbers.now k }
{
    numbers[level] <= stamp
}

/// Gives a row the times of an operation with two rows, at the levels at which what was written when that stamp was given
/// is live, in two steps each, and answers how many these are.
#[inline(always)]
fn give_both<R: LevelRow, L: Ledger>(
    rows: &mut [R],
    left: usize,
    right: usize,
    to: usize,
    stamp: u64,
    numbers: &[u64],
    before: &[u64],
    latency: u64,
    paths: &mut [u64],
    steps: &mut Steps<L>,
) -> usize
    requires left { 0 < stamp → left < length rows.old }
    requires right { 0 < stamp → right < length rows.old }
    requires within { to < length rows.old }
    requires few { length before.now ≤ R.width }
    requires each { length before.now ≡ length numbers.now }
    requires paths { length paths.old ≡ length before.now }
    requires rising { AreRising 0 numbers.now }
    requires small { (k : ℕ) → k < length before.now → slice_index numbers.now k ≤ stamp → after_live_rows (rows_at R.seen R.blank rows.old left) (rows_at R.seen R.blank rows.old right) before.now latency k ≤ R.greatest }
    ensures few { result ≤ length before.now }
    ensures live { (k : ℕ) → k < result → slice_index numbers.now k ≤ stamp }
    ensures gone { (k : ℕ) → result ≤ k → k < length numbers.now → stamp < slice_index numbers.now k }
    ensures given { AreGiven (after_live_rows (rows_at R.seen R.blank rows.old left) (rows_at R.seen R.blank rows.old right) before.now latency) to 0 result (rows_at R.seen R.blank rows.old) (rows_at R.seen R.blank rows.new) paths.old paths.new }
    ensures steps { steps.new ≡ steps.old + 2 * result }
    ensures size { length rows.new ≡ length rows.old }
{
    for level in 0..before.len() {
        if !is_live(numbers, level, stamp) {
            return level;
        }
        let time = after_both(rows, left, right, level, before[level], latency, steps);
        give(rows, to, level, time, paths);
    }
    before.len()
}

/// Gives a row the times of an operation with one row, at the levels from `low` on at which what was written when that
/// stamp was given is live, in one step each, and answers where these end.
#[inline(always)]
fn give_one<R: LevelRow, L: Ledger>(
    rows: &mut [R],
    from: usize,
    to: usize,
    low: usize,
    stamp: u64,
    numbers: &[u64],
    before: &[u64],
    latency: u64,
    paths: &mut [u64],
    steps: &mut Steps<L>,
) -> usize
    requires from { 0 < stamp → from < length rows.old }
    requires within { to < length rows.old }
    requires few { length before.now ≤ R.width }
    requires low { low ≤ length before.now }
    requires each { length before.now ≡ length numbers.now }
    requires paths { length paths.old ≡ length before.now }
    requires rising { AreRising 0 numbers.now }
    requires small { (k : ℕ) → low ≤ k → k < length before.now → slice_index numbers.now k ≤ stamp → after_live_row (rows_at R.seen R.blank rows.old from) before.now latency k ≤ R.greatest }
    ensures low { low ≤ result }
    ensures few { result ≤ length before.now }
    ensures live { (k : ℕ) → low ≤ k → k < result → slice_index numbers.now k ≤ stamp }
    ensures gone { (k : ℕ) → result ≤ k → k < length numbers.now → stamp < slice_index numbers.now k }
    ensures given { AreGiven (after_live_row (rows_at R.seen R.blank rows.old from) before.now latency) to low result (rows_at R.seen R.blank rows.old) (rows_at R.seen R.blank rows.new) paths.old paths.new }
    ensures steps { steps.new ≡ steps.old + (result - low) }
    ensures size { length rows.new ≡ length rows.old }
{
    for level in low..before.len() {
        if !is_live(numbers, level, stamp) {
            return level;
        }
        let time = after_one(rows, from, level, before[level], latency, steps);
        give(rows, to, level, time, paths);
    }
    before.len()
}

/// Gives a row the times of an operation without an operand that is live, at the levels from `low` on.
#[inline]
fn give_none<R: LevelRow>(
    rows: &mut [R],
    to: usize,
    low: usize,
    before: &[u64],
    latency: u64,
    paths: &mut [u64],
)
    requires within { to < length rows.old }
    requires few { length before.now ≤ R.width }
    requires low { low ≤ length before.now }
    requires paths { length paths.old ≡ length before.now }
    requires small { (k : ℕ) → low ≤ k → k < length before.now → after_none before.now latency k ≤ R.greatest }
    ensures given { AreGiven (after_none before.now latency) to low (length before.now) (rows_at R.seen R.blank rows.old) (rows_at R.seen R.blank rows.new) paths.old paths.new }
    ensures size { length rows.new ≡ length rows.old }
{
    for level in low..before.len() {
        let time = after(before[level], latency);
        give(rows, to, level, time, paths);
    }
}

/// Gives a row the times of an operation with two rows, of which one was written no later than the other. Their stamps are
/// `low` and `high`. It takes two steps a level.
#[inline(always)]
fn give_ordered<R: LevelRow, L: Ledger>(
    rows: &mut [R],
    older: usize,
    newer: usize,
    to: usize,
    low: u64,
    high: u64,
    numbers: &[u64],
    before: &[u64],
    latency: u64,
    paths: &mut [u64],
    steps: &mut Steps<L>,
)
    requires older { 0 < low → older < length rows.old }
    requires newer { 0 < high → newer < length rows.old }
    requires low { low ≡ (rows_at R.seen R.blank rows.old older).stamp }
    requires high { high ≡ (rows_at R.seen R.blank rows.old newer).stamp }
    requires order { low ≤ high }
    requires within { to < length rows.old }
    requires few { length before.now ≤ R.width }
    requires each { length before.now ≡ length numbers.now }
    requires paths { length paths.old ≡ length before.now }
    requires rising { AreRising 0 numbers.now }
    requires small { (k : ℕ) → k < length before.now → after_rows (rows_at R.seen R.blank rows.old older) (rows_at R.seen R.blank rows.old newer) numbers.now before.now latency k ≤ R.greatest }
    ensures given { AreGiven (after_rows (rows_at R.seen R.blank rows.old older) (rows_at R.seen R.blank rows.old newer) numbers.now before.now latency) to 0 (length before.now) (rows_at R.seen R.blank rows.old) (rows_at R.seen R.blank rows.new) paths.old paths.new }
    ensures steps { steps.new ≡ steps.old + 2 * length before.now }
    ensures size { length rows.new ≡ length rows.old }
{
    let both = give_both(
        rows, older, newer, to, low, numbers, before, latency, paths, steps,
    );
    let one = give_one(
        rows, newer, to, both, high, numbers, before, latency, paths, steps,
    );
    give_none(rows, to, one, before, latency, paths);
    steps.tick_levels(before.len() - both);
    steps.tick_levels(before.len() - one);
}

/// Gives a row the times of an operation with two rows that have these stamps, in two steps a level.
#[inline(always)]
fn give_rows<R: LevelRow, L: Ledger>(
    rows: &mut [R],
    left: usize,
    right: usize,
    to: usize,
    left_stamp: u64,
    right_stamp: u64,
    numbers: &[u64],
    before: &[u64],
    latency: u64,
    paths: &mut [u64],
    steps: &mut Steps<L>,
)
    requires left { 0 < left_stamp → left < length rows.old }
    requires right { 0 < right_stamp → right < length rows.old }
    requires left_stamp { left_stamp ≡ (rows_at R.seen R.blank rows.old left).stamp }
    requires right_stamp { right_stamp ≡ (rows_at R.seen R.blank rows.old right).stamp }
    requires within { to < length rows.old }
    requires few { length before.now ≤ R.width }
    requires each { length before.now ≡ length numbers.now }
    requires paths { length paths.old ≡ length before.now }
    requires rising { AreRising 0 numbers.now }
    requires small { (k : ℕ) → k < length before.now → after_rows (rows_at R.seen R.blank rows.old left) (rows_at R.seen R.blank rows.old right) numbers.now before.now latency k ≤ R.greatest }
    ensures given { AreGiven (after_rows (rows_at R.seen R.blank rows.old left) (rows_at R.seen R.blank rows.old right) numbers.now before.now latency) to 0 (length before.now) (rows_at R.seen R.blank rows.old) (rows_at R.seen R.blank rows.new) paths.old paths.new }
    ensures steps { steps.new ≡ steps.old + 2 * length before.now }
    ensures size { length rows.new ≡ length rows.old }
{
    if left_stamp <= right_stamp {
        give_ordered(
            rows,
            left,
            right,
            to,
            left_stamp,
            right_stamp,
            numbers,
            before,
            latency,
            paths,
            steps,
        );
    } else {
        give_ordered(
            rows,
            right,
            left,
            to,
            right_stamp,
            left_stamp,
            numbers,
            before,
            latency,
            paths,
            steps,
        );
    }
}

/// Gives a row a stamp, and leaves its times.
#[inline(always)]
fn stamp_row<R: LevelRow>(rows: &mut [R], to: usize, stamp: u64)
    requires { to < length rows.old }
    ensures size { length rows.new ≡ length rows.old }
    ensures stamped { (rows_at R.seen R.blank rows.new to).stamp ≡ stamp }
    ensures times { (k : ℕ) → (rows_at R.seen R.blank rows.new to).time k ≡ (rows_at R.seen R.blank rows.old to).time k }
    ensures others { (at : ℕ) → at ≢ to → rows_at R.seen R.blank rows.new at ≡ rows_at R.seen R.blank rows.old at }
{
    let row = &mut rows[to];
    row.set_stamp(stamp);
}

/// The stamp of a location's row, 0 where it has none.
#[inline(always)]
fn stamp_at<R: LevelRow>(rows: &[R], loc: usize) -> u64
    ensures stamp { result ≡ (rows_at R.seen R.blank rows.now loc).stamp }
    ensures within { 0 < result → loc < length rows.now }
{
    if loc >= rows.len() {
        return 0;
    }
    let row = &rows[loc];
    row.stamp()
}

/// Gives a row the times of an operation that waits for these times alone.
#[inline]
pub fn write_none<R: LevelRow>(
    rows: &mut Vec<R>,
    to: usize,
    stamp: u64,
    before: &[u64],
    latency: u64,
    paths: &mut [u64],
)
    requires row { to < length rows.old.items }
    requires few { length before.now ≤ R.width }
    requires paths { length paths.old ≡ length before.now }
    requires within { (k : ℕ) → k < length before.now → delayed (slice_index before.now k) latency ≤ R.greatest }
    ensures given { IsGiven (after_none before.now latency) to stamp (length before.now) (rows_at R.seen R.blank rows.old.items) (rows_at R.seen R.blank rows.new.items) }
    ensures raised { AreRaised (after_none before.now latency) (length before.now) paths.old paths.new }
    ensures size { length rows.new.items ≡ length rows.old.items }
{
    let rows = rows.as_mut_slice();
    give_none(rows, to, 0, before, latency, paths);
    stamp_row(rows, to, stamp);
}

/// Gives a row the times of an operation that waits for these times and for a row's, in one step a level.
#[inline]
pub fn write_one<R: LevelRow, L: Ledger>(
    rows: &mut Vec<R>,
    from: usize,
    to: usize,
    numbers: &[u64],
    stamp: u64,
    before: &[u64],
    latency: u64,
    paths: &mut [u64],
    steps: &mut Steps<L>,
)
    requires row { to < length rows.old.items }
    requires few { length before.now ≤ R.width }
    requires live { length before.now ≡ length numbers.now }
    requires paths { length paths.old ≡ length before.now }
    requires rising { AreRising 0 numbers.now }
    requires within { (k : ℕ) → k < length before.now → delayed (max (row_time (rows_at R.seen R.blank rows.old.items from) (slice_index numbers.now k) k) (slice_index before.now k)) latency ≤ R.greatest }
    ensures given { IsGiven (after_row (rows_at R.seen R.blank rows.old.items from) numbers.now before.now latency) to stamp (length before.now) (rows_at R.seen R.blank rows.old.items) (rows_at R.seen R.blank rows.new.items) }
    ensures raised { AreRaised (after_row (rows_at R.seen R.blank rows.old.items from) numbers.now before.now latency) (length before.now) paths.old paths.new }
    ensures steps { steps.new ≡ steps.old + length before.now }
    ensures size { length rows.new.items ≡ length rows.old.items }
{
    let rows = rows.as_mut_slice();
    let written = stamp_at(rows, from);
    let live = give_one(
        rows, from, to, 0, written, numbers, before, latency, paths, steps,
    );
    give_none(rows, to, live, before, latency, paths);
    steps.tick_levels(before.len() - live);
    stamp_row(rows, to, stamp);
}

/// Gives a row the times of an operation that waits for these times and for two rows', in two steps a level.
#[inline]
pub fn write_both<R: LevelRow, L: Ledger>(
    rows: &mut Vec<R>,
    left: usize,
    right: usize,
    to: usize,
    numbers: &[u64],
    stamp: u64,
    before: &[u64],
    latency: u64,
    paths: &mut [u64],
    steps: &mut Steps<L>,
)
    requires row { to < length rows.old.items }
    requires few { length before.now ≤ R.width }
    requires live { length before.now ≡ length numbers.now }
    requires paths { length paths.old ≡ length before.now }
    requires rising { AreRising 0 numbers.now }
    requires within { (k : ℕ) → k < length before.now → delayed (max (max (row_time (rows_at R.seen R.blank rows.old.items left) (slice_index numbers.now k) k) (row_time (rows_at R.seen R.blank rows.old.items right) (slice_index numbers.now k) k)) (slice_index before.now k)) latency ≤ R.greatest }
    ensures given { IsGiven (after_rows (rows_at R.seen R.blank rows.old.items left) (rows_at R.seen R.blank rows.old.items right) numbers.now before.now latency) to stamp (length before.now) (rows_at R.seen R.blank rows.old.items) (rows_at R.seen R.blank rows.new.items) }
    ensures raised { AreRaised (after_rows (rows_at R.seen R.blank rows.old.items left) (rows_at R.seen R.blank rows.old.items right) numbers.now before.now latency) (length before.now) paths.old paths.new }
    ensures steps { steps.new ≡ steps.old + 2 * length before.now }
    ensures size { length rows.new.items ≡ length rows.old.items }
{
    let rows = rows.as_mut_slice();
    let left_stamp = stamp_at(rows, left);
    let right_stamp = stamp_at(rows, right);
    give_rows(
        rows,
        left,
        right,
        to,
        left_stamp,
        right_stamp,
        numbers,
        before,
        latency,
        paths,
        steps,
    );
    stamp_row(rows, to, stamp);
}
