//! Rows of any one kind, in the order of locations.
ghost use Rattle.std.specs.Prelude.{◌≡◌, ◌≢◌, ◌+◌, ◌<◌, ◌≤◌, ℕ, length, vec_len, max, slice_index, OnOk, IfOk};
ghost use Rattle.k_shadow.specs.Numbers.{AreRising};
ghost use Rattle.k_shadow.specs.Rows.{row_time};
ghost use Rattle.k_shadow_rows.specs.Given.{IsGiven};
ghost use Rattle.k_shadow_rows.specs.Rows.{rows_at};

use crate::level_row;
use k_num::NoMemory;
use k_shadow::{LevelRow, Steps, copy_to};
use std::alloc::Global;
use std::sync::ledger::Ledger;

/// The time of a location at a level, whose instance has that number, in one step.
#[inline]
pub fn time_of<R: LevelRow, L: Ledger>(
    rows: &[R],
    loc: usize,
    number: u64,
    level: usize,
    steps: &mut Steps<L>,
) -> u64
    ensures time { result ≡ row_time (rows_at R.seen R.blank rows.now loc) number level }
    ensures step { steps.new ≡ steps.old + 1 }
{
    match rows.get(loc) {
        Some(row) => level_row::time(row, number, level, steps),
        None => {
            steps.tick();
            0
        }
    }
}

/// Raises each of these times to the location's at its level, where it is lower, in one step a level.
#[inline]
pub fn raise<R: LevelRow, L: Ledger>(
    rows: &Vec<R>,
    loc: usize,
    numbers: &[u64],
    times: &mut [u64],
    steps: &mut Steps<L>,
)
    requires each { length times.old ≡ length numbers.now }
    requires rising { AreRising 0 numbers.now }
    ensures raised { (k : ℕ) → k < length numbers.now → slice_index times.new k ≡ max (slice_index times.old k) (row_time (rows_at R.seen R.blank rows.now.items loc) (slice_index numbers.now k) k) }
    ensures steps { steps.new ≡ steps.old + length numbers.now }
{
    match rows.get(loc) {
        Some(row) => level_row::raise(row, numbers, times, steps),
        None => steps.tick_each(numbers),
    }
}

/// Fills the list with the later of two times at each level, `before`'s and the location's, in one step a level.
#[inline]
pub fn latest<R: LevelRow, L: Ledger>(
    rows: &Vec<R>,
    loc: usize,
    numbers: &[u64],
    before: &[u64],
    times: &mut [u64],
    steps: &mut Steps<L>,
)
    requires each { length before.now ≡ length numbers.now }
    requires times { length times.old ≡ length numbers.now }
    requires rising { AreRising 0 numbers.now }
    ensures times { (k : ℕ) → k < length numbers.now → slice_index times.new k ≡ max (row_time (rows_at R.seen R.blank rows.now.items loc) (slice_index numbers.now k) k) (slice_index before.now k) }
    ensures steps { steps.new ≡ steps.old + length numbers.now }
{
    match rows.get(loc) {
        Some(row) => level_row::latest(row, numbers, before, times, steps),
        None => {
            steps.tick_each(numbers);
            copy_to(times, before);
        }
    }
}

/// Writes the times of a location.
#[inline]
pub fn put<R: LevelRow>(rows: &mut Vec<R>, loc: usize, stamp: u64, times: &[u64])
    requires within { loc < length rows.old.items }
    requires few { length times.now ≤ R.width }
    requires small { (k : ℕ) → k < length times.now → slice_index times.now k ≤ R.greatest }
    ensures given { IsGiven (slice_index times.now) loc stamp (length times.now) (rows_at R.seen R.blank rows.old.items) (rows_at R.seen R.blank rows.new.items) }
    ensures size { length rows.new.items ≡ length rows.old.items }
{
    let row = &mut rows[loc];
    level_row::write(row, stamp, times);
}

/// Makes the rows from `first` to before `end` read 0 at every level: one most often, without a loop.
#[inline(always)]
pub fn clear<R: LevelRow>(rows: &mut Vec<R>, first: usize, end: usize)
    ensures among { (k : ℕ) → first ≤ k → k < end → (rows_at R.seen R.blank rows.new.items k).stamp ≡ 0 }
    ensures before { (k : ℕ) → k < first → rows_at R.seen R.blank rows.new.items k ≡ rows_at R.seen R.blank rows.old.items k }
    ensures behind { (k : ℕ) → end ≤ k → rows_at R.seen R.blank rows.new.items k ≡ rows_at R.seen R.blank rows.old.items k }
    ensures size { length rows.new.items ≡ length rows.old.items }
{
    if first < end && end - first == 1 {
        clear_row(rows, first);
    } else {
        clear_rows(rows, first, end);
    }
}

/// Makes a row read 0 at every level.
#[inline(always)]
fn clear_row<R: LevelRow>(rows: &mut Vec<R>, at: usize)
    ensures here { (rows_at R.seen R.blank rows.new.items at).stamp ≡ 0 }
    ensures others { (k : ℕ) → k ≢ at → rows_at R.seen R.blank rows.new.items k ≡ rows_at R.seen R.blank rows.old.items k }
    ensures size { length rows.new.items ≡ length rows.old.items }
{
    if at < rows.len() {
        let row = &mut rows[at];
        row.set_stamp(0);
    }
}

/// Makes the rows from `first` to before `end` read 0 at every level.
#[inline(never)]
fn clear_rows<R: LevelRow>(rows: &mut Vec<R>, first: usize, end: usize)
    ensures among { (k : ℕ) → first ≤ k → k < end → (rows_at R.seen R.blank rows.new.items k).stamp ≡ 0 }
    ensures before { (k : ℕ) → k < first → rows_at R.seen R.blank rows.new.items k ≡ rows_at R.seen R.blank rows.old.items k }
    ensures behind { (k : ℕ) → end ≤ k → rows_at R.seen R.blank rows.new.items k ≡ rows_at R.seen R.blank rows.old.items k }
    ensures size { length rows.new.items ≡ length rows.old.items }
{
    for at in first..end.min(rows.len()) {
        let row = &mut rows[at];
        row.set_stamp(0);
    }
}

/// Gives a location the row of another, or a blank one where that has none.
#[inline]
pub fn copy<R: LevelRow>(rows: &mut Vec<R>, from: usize, to: usize)
    requires { to < length rows.old.items }
    ensures here { rows_at R.seen R.blank rows.new.items to ≡ rows_at R.seen R.blank rows.old.items from }
    ensures others { (at : ℕ) → at ≢ to → rows_at R.seen R.blank rows.new.items at ≡ rows_at R.seen R.blank rows.old.items at }
    ensures size { length rows.new.items ≡ length rows.old.items }
{
    let row = row_or_blank(rows, from);
    rows[to] = row;
}

/// The row of a location, a blank one where there is none.
#[inline]
fn row_or_blank<R: LevelRow>(rows: &[R], loc: usize) -> R
    ensures { R.seen result ≡ rows_at R.seen R.blank rows.now loc }
{
    match rows.get(loc) {
        Some(row) => *row,
        None => R::blank(),
    }
}

/// Adds blank rows until there are `count`. A refusal leaves the rows as they were.
pub fn grow_to<R: LevelRow>(rows: &mut Vec<R>, count: usize) -> Result<(), NoMemory>
    ensures same { (loc : ℕ) → rows_at R.seen R.blank rows.new.items loc ≡ rows_at R.seen R.blank rows.old.items loc }
    ensures longer { vec_len rows.old ≤ vec_len rows.new }
    ensures longest { vec_len rows.new ≤ max count (vec_len rows.old) }
    ensures ok { OnOk result (count ≤ vec_len rows.new) }
{
    if rows.len() < count {
        rows.resize(count, R::blank())?;
    }
    Ok(())
}

/// The same row with times for as many levels or more, and of as many bits or more.
#[inline]
fn widened_row<R: LevelRow, W: LevelRow>(row: &R) -> W
    requires wider { R.width ≤ W.width }
    requires greater { R.greatest ≤ W.greatest }
    ensures { W.seen result ≡ R.seen row.now }
{
    let mut wide = W::blank();
    wide.set_stamp(row.stamp());
    for level in 0..row.levels() {
        wide.set_carried(level, row.carried(level));
    }
    wide
}

/// The same rows with times for as many levels or more, and of as many bits or more.
pub fn widened<R: LevelRow, W: LevelRow>(rows: &[R], alloc: Global) -> Result<Vec<W>, NoMemory>
    requires wider { R.width ≤ W.width }
    requires greater { R.greatest ≤ W.greatest }
    ensures ok { IfOk result (λ wide. (vec_len wide ≡ length rows.now) × ((loc : ℕ) → rows_at W.seen W.blank wide.items loc ≡ rows_at R.seen R.blank rows.now loc)) }
{
    let mut wide = Vec::with_capacity(alloc, rows.len())?;
    for row in rows {
        wide.push_reserved(widened_row(row));
    }
    Ok(wide)
}
