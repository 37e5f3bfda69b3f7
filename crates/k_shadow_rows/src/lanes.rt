//! Times that are read and written in lanes: quickly in narrow rows, level by level in others.
ghost use Rattle.std.specs.Prelude.{◌≡◌, ◌+◌, ◌^◌, ◌<◌, ◌≤◌, ℕ, length, max, slice_index};
ghost use Rattle.k_shadow.specs.Rows.{row_time};
ghost use Rattle.k_shadow_rows.specs.Given.{IsGiven};
ghost use Rattle.k_shadow_rows.specs.Rows.{greatest, narrow_at, row_in, size, width, HasRow};

use crate::Rows;
use k_shadow::{NarrowRow, Steps, TimeLanes, widened};
use std::sync::ledger::Ledger;

/// The later of two times in each lane of the `depth` outermost levels: the lane's, and the location's, in one step a level.
/// The levels' instances have the numbers `starts`.
#[inline(always)]
pub fn later<const M: usize, V: TimeLanes, L: Ledger>(
    rows: &[NarrowRow<M>],
    loc: usize,
    starts: &[u32; 32],
    depth: usize,
    before: V,
    steps: &mut Steps<L>,
) -> V
    requires within { V.count ≤ 32 }
    requires shallow { depth ≤ V.count }
    requires stamp { (narrow_at {levels = M} rows.now loc).stamp < 2 ^ 32 }
    ensures times { (k : ℕ) → k < depth → V.time result k ≡ max (V.time before k) (row_time (narrow_at {levels = M} rows.now loc) (slice_index starts.now k) k) }
    ensures steps { steps.new ≡ steps.old + depth }
{
    if loc >= rows.len() {
        steps.tick_levels(depth);
        return before;
    }
    let row = &rows[loc];
    row.later_lanes(starts, depth, before, steps)
}

/// Writes the times of a location, as many as there are lanes and levels.
#[inline(always)]
pub fn put<const M: usize, V: TimeLanes>(
    rows: &mut Vec<NarrowRow<M>>,
    loc: usize,
    stamp: u64,
    times: V,
)
    requires within { loc < length rows.old.items }
    ensures given { (depth : ℕ) → depth ≤ M → depth ≤ V.count → IsGiven (V.time times) loc stamp depth (narrow_at {levels = M} rows.old.items) (narrow_at {levels = M} rows.new.items) }
    ensures size { length rows.new.items ≡ length rows.old.items }
{
    let row = &mut rows[loc];
    row.write_lanes(stamp, times);
}

/// `Rows::later_lanes` in rows of any kind.
#[cold]
#[inline(never)]
pub fn later_slowly<V: TimeLanes, L: Ledger>(
    rows: &Rows,
    loc: usize,
    starts: &[u32; 32],
    depth: usize,
    before: V,
    steps: &mut Steps<L>,
) -> V
    requires within { V.count ≤ 32 }
    requires shallow { depth ≤ V.count }
    ensures times { (k : ℕ) → k < depth → row_time (row_in rows.now loc) (slice_index starts.now k) k < 2 ^ 32 → V.time result k ≡ max (V.time before k) (row_time (row_in rows.now loc) (slice_index starts.now k) k) }
    ensures steps { steps.new ≡ steps.old + depth }
{
    let mut times = before;
    for level in 0..depth {
        let time = rows
            .time(loc, starts[level] as u64, level, steps)
            .min(4_294_967_295);
        times = times.with_time(level, times.at(level).max(time as u32));
    }
    times
}

/// `Rows::put_lanes` in rows of any kind.
#[cold]
#[inline(never)]
pub fn put_slowly<V: TimeLanes>(rows: &mut Rows, loc: usize, stamp: u64, depth: usize, times: V)
    requires row { HasRow rows.old loc depth }
    requires within { V.count ≤ 32 }
    requires depth { depth ≤ V.count }
    ensures given { IsGiven (V.time times) loc stamp depth (row_in rows.old) (row_in rows.new) }
    ensures size { size rows.new ≡ size rows.old }
    ensures width { width rows.new ≡ width rows.old }
    ensures greatest { greatest rows.new ≡ greatest rows.old }
{
    let each = widened(times);
    rows.put(loc, stamp, &each[..depth]);
}
