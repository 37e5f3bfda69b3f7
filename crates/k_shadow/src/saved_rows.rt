//! The saved entries of a control stack as rows, with free rows behind them.
ghost use Rattle.std.specs.Prelude.{◌≡◌, ℕ, ◌^◌, ◌<◌, ◌≤◌, true, length, take, slice_index, vec_len, OnOk, OnErr};
ghost use Rattle.k_shadow.specs.Content.{at_levels};
ghost use Rattle.k_shadow.specs.Rows.{row_at, row_time, times_of, IsKept, WereStamped};

use crate::{Row, TimeLanes, Versions};
use k_num::NoMemory;

/// Makes a free row behind so many, where there is none. A refusal changes nothing.
#[inline]
pub fn add_row(rows: &mut Vec<Row<32>>, count: usize) -> Result<(), NoMemory>
    requires { count ≤ vec_len rows.old }
    ensures front { take count rows.new.items ≡ take count rows.old.items }
    ensures at { row_at rows.new.items count ≡ row_at rows.old.items count }
    ensures longer { vec_len rows.old ≤ vec_len rows.new }
    ensures stamped { (given : ℕ) → WereStamped given rows.old.items → WereStamped given rows.new.items }
    ensures ok { OnOk result (count < vec_len rows.new) }
    ensures err { OnErr result (rows.new.items ≡ rows.old.items) }
{
    if count >= rows.len() {
        rows.push(Row::blank())?;
    }
    Ok(())
}

/// Makes the row at a place have the times of the live levels, unless it has them.
#[inline]
pub fn write_entry(
    rows: &mut Vec<Row<32>>,
    at: usize,
    kept: bool,
    versions: &Versions,
    current: &[u64; 32],
)
    requires within { at < vec_len rows.old }
    requires kept { IsKept kept rows.old.items at versions.now.live current.now }
    ensures held { IsKept true rows.new.items at versions.now.live current.now }
    ensures size { vec_len rows.new ≡ vec_len rows.old }
    ensures front { take at rows.new.items ≡ take at rows.old.items }
    ensures stamped { WereStamped versions.now.given rows.old.items → WereStamped versions.now.given rows.new.items }
{
    if !kept {
        let row = &mut rows[at];
        row.write(versions.last_given(), &current[..versions.depth()]);
    }
}

/// Copies the times of the row at a place to the front of a list. The levels' instances have these numbers.
#[inline]
pub fn copy_entry(rows: &Vec<Row<32>>, at: usize, numbers: &[u64], to: &mut [u64])
    requires within { at < vec_len rows.now }
    requires few { length numbers.now ≤ 32 }
    requires room { length numbers.now ≤ length to.old }
    ensures { (k : ℕ) → k < length numbers.now → slice_index to.new k ≡ row_time (row_at rows.now.items at) (slice_index numbers.now k) k }
{
    let row = &rows[at];
    row.copy_to(numbers, to);
}

/// Makes the row at a place have the times of lanes at the live levels.
#[inline(always)]
pub fn write_lanes<V: TimeLanes>(rows: &mut Vec<Row<32>>, at: usize, versions: &Versions, times: V)
    requires within { at < vec_len rows.old }
    requires lanes { V.count ≤ 32 }
    requires shallow { length versions.now.live ≤ V.count }
    ensures held { times_of (row_at rows.new.items at) versions.now.live ≡ at_levels (length versions.now.live) (V.time times) }
    ensures size { vec_len rows.new ≡ vec_len rows.old }
    ensures front { take at rows.new.items ≡ take at rows.old.items }
    ensures stamped { WereStamped versions.now.given rows.old.items → WereStamped versions.now.given rows.new.items }
{
    let row = &mut rows[at];
    row.write_lanes(versions.last_given(), times);
}

/// The times of the row at a place, in lanes.
#[inline(always)]
pub fn read_lanes<V: TimeLanes>(rows: &Vec<Row<32>>, at: usize, versions: &Versions) -> V
    requires within { at < vec_len rows.now }
    requires lanes { V.count ≤ 32 }
    requires shallow { length versions.now.live ≤ V.count }
    requires few { versions.now.given < 2 ^ 32 }
    requires stamp { (row_at rows.now.items at).stamp ≤ versions.now.given }
    requires small { (k : ℕ) → k < length versions.now.live → row_time (row_at rows.now.items at) (slice_index versions.now.live k) k < 2 ^ 32 }
    ensures { times_of (row_at rows.now.items at) versions.now.live ≡ at_levels (length versions.now.live) (V.time result) }
{
    let row = &rows[at];
    row.begun(versions.starts())
}
