//! Rows of any of the four kinds.
ghost use Rattle.std.specs.Prelude.{◌≡◌, ◌≢◌, ◌+◌, ◌*◌, ◌^◌, ◌<◌, ◌≤◌, ℕ, length, max, slice_index, OnOk, true};
ghost use Rattle.k_shadow.specs.Content.{after_none};
ghost use Rattle.k_shadow.specs.Numbers.{AreRising};
ghost use Rattle.k_shadow.specs.Rooms.{delayed};
ghost use Rattle.k_shadow.specs.Rows.{row_time, unwritten};
ghost use Rattle.k_shadow_rows.specs.Given.{AreRaised, IsGiven, after_row, after_rows};
ghost use Rattle.k_shadow_rows.specs.Rows.{greatest, row_in, size, width, HasRow};

use crate::{given, lanes, lists};
use k_num::NoMemory;
use k_shadow::{NarrowRow, Row, Steps, TimeLanes};
use std::alloc::Global;
use std::sync::ledger::Ledger;

/// Rows of times in the order of locations, all of one width, and all narrow or none. A narrow row has times of 32 bits and
/// takes 40 bytes for 8 levels and 136 for 32; any other has times of 64 bits and takes 72 or 264.
#[derive(Drop)]
pub enum Rows {
    /// Narrow, with times for the 8 outermost levels.
    NarrowEight(Vec<NarrowRow<8>>),
    /// Narrow, with times for each level that may be live.
    NarrowThirtyTwo(Vec<NarrowRow<32>>),
    /// With times for the 8 outermost levels.
    Eight(Vec<Row<8>>),
    /// With times for each level that may be live.
    ThirtyTwo(Vec<Row<32>>),
}

impl Rows {
    /// There is no row.
    pub fn new(alloc: Global) -> Rows
        ensures none { (loc : ℕ) → row_in result loc ≡ unwritten }
        ensures empty { size result ≡ 0 }
    {
        Rows::NarrowEight(Vec::new(alloc))
    }

    /// How many rows there are.
    #[inline]
    pub fn len(&self) -> usize
        ensures count { result ≡ size self.now }
    {
        match self {
            Rows::NarrowEight(rows) => rows.len(),
            Rows::NarrowThirtyTwo(rows) => rows.len(),
            Rows::Eight(rows) => rows.len(),
            Rows::ThirtyTwo(rows) => rows.len(),
        }
    }

    /// For how many levels the rows have times.
    #[inline]
    pub fn width(&self) -> usize
        ensures levels { result ≡ width self.now }
    {
        match self {
            Rows::NarrowEight(_) => 8,
            Rows::NarrowThirtyTwo(_) => 32,
            Rows::Eight(_) => 8,
            Rows::ThirtyTwo(_) => 32,
        }
    }

    /// The greatest time that the rows can have.
    #[inline]
    pub fn greatest(&self) -> u64
        ensures most { result ≡ greatest self.now }
    {
        match self {
            Rows::NarrowEight(_) => 4_294_967_295,
            Rows::NarrowThirtyTwo(_) => 4_294_967_295,
            Rows::Eight(_) => u64::MAX,
            Rows::ThirtyTwo(_) => u64::MAX,
        }
    }

    /// Makes the rows have times of up to `most` for `depth` levels, and adds blank ones until there are `count`. A refusal
    /// may have done the first.
    #[inline(always)]
    pub fn reserve(
        &mut self,
        count: usize,
        depth: usize,
        most: u64,
        alloc: Global,
    ) -> Result<(), NoMemory>
        requires { depth ≤ 32 }
        ensures same { (loc : ℕ) → row_in self.new loc ≡ row_in self.old loc }
        ensures longer { size self.old ≤ size self.new }
        ensures longest { size self.new ≤ max count (size self.old) }
        ensures wider { width self.old ≤ width self.new }
        ensures greater { greatest self.old ≤ greatest self.new }
        ensures ok { OnOk result ((count ≤ size self.new) × (depth ≤ width self.new) × (most ≤ greatest self.new)) }
    {
        if self.has_rows(count, depth, most) {
            return Ok(());
        }
        self.make_rows(count, depth, most, alloc)
    }

    /// Tells that there are so many rows, and that they have times of up to `most` for `depth` levels.
    #[inline(always)]
    fn has_rows(&self, count: usize, depth: usize, most: u64) -> bool
        requires { depth ≤ 32 }
        ensures { result ≡ true → (count ≤ size self.now) × (depth ≤ width self.now) × (most ≤ greatest self.now) }
    {
        match self {
            Rows::NarrowEight(rows) => {
                depth <= 8 && most <= 4_294_967_295 && count <= rows.len()
            }
            Rows::NarrowThirtyTwo(rows) => most <= 4_294_967_295 && count <= rows.len(),
            _ => self.has_wide_rows(count, depth),
        }
    }

    /// The same of rows that aren't narrow, which have times of any size.
    #[cold]
    #[inline(never)]
    fn has_wide_rows(&self, count: usize, depth: usize) -> bool
        requires { depth ≤ 32 }
        ensures { result ≡ true → (count ≤ size self.now) × (depth ≤ width self.now) × (greatest self.now ≡ 18446744073709551615) }
    {
        match self {
            Rows::Eight(rows) => depth <= 8 && count <= rows.len(),
            Rows::ThirtyTwo(rows) => count <= rows.len(),
            _ => false,
        }
    }

    /// `reserve`, where something may be lacking.
    fn make_rows(
        &mut self,
        count: usize,
        depth: usize,
        most: u64,
        alloc: Global,
    ) -> Result<(), NoMemory>
        requires { depth ≤ 32 }
        ensures same { (loc : ℕ) → row_in self.new loc ≡ row_in self.old loc }
        ensures longer { size self.old ≤ size self.new }
        ensures longest { size self.new ≤ max count (size self.old) }
        ensures wider { width self.old ≤ width self.new }
        ensures greater { greatest self.old ≤ greatest self.new }
        ensures ok { OnOk result ((count ≤ size self.new) × (depth ≤ width self.new) × (most ≤ greatest self.new)) }
    {
        self.widen(depth, most, alloc)?;
        self.grow_to(count)
    }

    /// Makes the rows have times of up to `most` for `depth` levels. A refusal leaves them as they were.
    fn widen(&mut self, depth: usize, most: u64, alloc: Global) -> Result<(), NoMemory>
        requires { depth ≤ 32 }
        ensures same { (loc : ℕ) → row_in self.new loc ≡ row_in self.old loc }
        ensures size { size self.new ≡ size self.old }
        ensures wider { width self.old ≤ width self.new }
        ensures greater { greatest self.old ≤ greatest self.new }
        ensures ok { OnOk result ((depth ≤ width self.new) × (most ≤ greatest self.new)) }
    {
        if most <= self.greatest() {
            if depth > self.width() {
                self.deepen(alloc)?;
            }
            return Ok(());
        }
        if depth > self.width() {
            return self.deepen_and_enlarge(alloc);
        }
        self.enlarge(alloc)
    }

    /// Makes the rows have times for 32 levels. A refusal leaves them as they were.
    fn deepen(&mut self, alloc: Global) -> Result<(), NoMemory>
        ensures same { (loc : ℕ) → row_in self.new loc ≡ row_in self.old loc }
        ensures size { size self.new ≡ size self.old }
        ensures wider { width self.old ≤ width self.new }
        ensures greatest { greatest self.new ≡ greatest self.old }
        ensures ok { OnOk result (width self.new ≡ 32) }
    {
        if let Rows::NarrowEight(rows) = self {
            let wide = lists::widened(rows, alloc)?;
            *self = Rows::NarrowThirtyTwo(wide);
        } else if let Rows::Eight(rows) = self {
            let wide = lists::widened(rows, alloc)?;
            *self = Rows::ThirtyTwo(wide);
        }
        Ok(())
    }

    /// Makes the rows have times of 64 bits. A refusal leaves them as they were.
    fn enlarge(&mut self, alloc: Global) -> Result<(), NoMemory>
        ensures same { (loc : ℕ) → row_in self.new loc ≡ row_in self.old loc }
        ensures size { size self.new ≡ size self.old }
        ensures width { width self.new ≡ width self.old }
        ensures greater { greatest self.old ≤ greatest self.new }
        ensures ok { OnOk result (greatest self.new ≡ 18446744073709551615) }
    {
        if let Rows::NarrowEight(rows) = self {
            let wide = lists::widened(rows, alloc)?;
            *self = Rows::Eight(wide);
        } else if let Rows::NarrowThirtyTwo(rows) = self {
            let wide = lists::widened(rows, alloc)?;
            *self = Rows::ThirtyTwo(wide);
        }
        Ok(())
    }

    /// Makes narrow rows for 8 levels have times of 64 bits for 32 levels. A refusal leaves them as they were.
    fn deepen_and_enlarge(&mut self, alloc: Global) -> Result<(), NoMemory>
        requires few { width self.old < 32 }
        requires narrow { greatest self.old < 18446744073709551615 }
        ensures same { (loc : ℕ) → row_in self.new loc ≡ row_in self.old loc }
        ensures size { size self.new ≡ size self.old }
        ensures wider { width self.old ≤ width self.new }
        ensures greater { greatest self.old ≤ greatest self.new }
        ensures ok { OnOk result ((width self.new ≡ 32) × (greatest self.new ≡ 18446744073709551615)) }
    {
        if let Rows::NarrowEight(rows) = self {
            let wide = lists::widened(rows, alloc)?;
            *self = Rows::ThirtyTwo(wide);
        }
        Ok(())
    }

    /// Adds blank rows until there are `count`. A refusal leaves the rows as they were.
    #[inline]
    fn grow_to(&mut self, count: usize) -> Result<(), NoMemory>
        ensures same { (loc : ℕ) → row_in self.new loc ≡ row_in self.old loc }
        ensures longer { size self.old ≤ size self.new }
        ensures longest { size self.new ≤ max count (size self.old) }
        ensures width { width self.new ≡ width self.old }
        ensures greatest { greatest self.new ≡ greatest self.old }
        ensures ok { OnOk result (count ≤ size self.new) }
    {
        match self {
            Rows::NarrowEight(rows) => lists::grow_to(rows, count),
            Rows::NarrowThirtyTwo(rows) => lists::grow_to(rows, count),
            Rows::Eight(rows) => lists::grow_to(rows, count),
            Rows::ThirtyTwo(rows) => lists::grow_to(rows, count),
        }
    }

    /// The time of a location at a level, whose instance has that number, in one step.
    #[inline]
    pub fn time<L: Ledger>(
        &self,
        loc: usize,
        number: u64,
        level: usize,
        steps: &mut Steps<L>,
    ) -> u64
        ensures time { result ≡ row_time (row_in self.now loc) number level }
        ensures step { steps.new ≡ steps.old + 1 }
    {
        match self {
            Rows::NarrowEight(rows) => lists::time_of(rows, loc, number, level, steps),
            Rows::NarrowThirtyTwo(rows) => lists::time_of(rows, loc, number, level, steps),
            Rows::Eight(rows) => lists::time_of(rows, loc, number, level, steps),
            Rows::ThirtyTwo(rows) => lists::time_of(rows, loc, number, level, steps),
        }
    }

    /// Raises each of these times to the location's at its level, where it is lower, in one step a level. The levels'
    /// instances have these numbers.
    #[inline]
    pub fn raise<L: Ledger>(
        &self,
        loc: usize,
        numbers: &[u64],
        times: &mut [u64],
        steps: &mut Steps<L>,
    )
        requires each { length times.old ≡ length numbers.now }
        requires rising { AreRising 0 numbers.now }
        ensures raised { (k : ℕ) → k < length numbers.now → slice_index times.new k ≡ max (slice_index times.old k) (row_time (row_in self.now loc) (slice_index numbers.now k) k) }
        ensures steps { steps.new ≡ steps.old + length numbers.now }
    {
        match self {
            Rows::NarrowEight(rows) => lists::raise(rows, loc, numbers, times, steps),
            Rows::NarrowThirtyTwo(rows) => lists::raise(rows, loc, numbers, times, steps),
            Rows::Eight(rows) => lists::raise(rows, loc, numbers, times, steps),
            Rows::ThirtyTwo(rows) => lists::raise(rows, loc, numbers, times, steps),
        }
    }

    /// Fills the list with the later of two times at each level, `before`'s and the location's, in one step a level. The
    /// levels' instances have these numbers.
    #[inline]
    pub fn latest<L: Ledger>(
        &self,
        loc: usize,
        numbers: &[u64],
        before: &[u64],
        times: &mut [u64],
        steps: &mut Steps<L>,
    )
        requires each { length before.now ≡ length numbers.now }
        requires times { length times.old ≡ length numbers.now }
        requires rising { AreRising 0 numbers.now }
        ensures times { (k : ℕ) → k < length numbers.now → slice_index times.new k ≡ max (row_time (row_in self.now loc) (slice_index numbers.now k) k) (slice_index before.now k) }
        ensures steps { steps.new ≡ steps.old + length numbers.now }
    {
        match self {
            Rows::NarrowEight(rows) => lists::latest(rows, loc, numbers, before, times, steps),
            Rows::NarrowThirtyTwo(rows) => lists::latest(rows, loc, numbers, before, times, steps),
            Rows::Eight(rows) => lists::latest(rows, loc, numbers, before, times, steps),
            Rows::ThirtyTwo(rows) => lists::latest(rows, loc, numbers, before, times, steps),
        }
    }

    /// Writes the times of a location at the outermost levels, as many as there are.
    #[inline]
    pub fn put(&mut self, loc: usize, stamp: u64, times: &[u64])
        requires row { HasRow self.old loc (length times.now) }
        requires within { (k : ℕ) → k < length times.now → slice_index times.now k ≤ greatest self.old }
        ensures given { IsGiven (slice_index times.now) loc stamp (length times.now) (row_in self.old) (row_in self.new) }
        ensures size { size self.new ≡ size self.old }
        ensures width { width self.new ≡ width self.old }
        ensures greatest { greatest self.new ≡ greatest self.old }
    {
        match self {
            Rows::NarrowEight(rows) => lists::put(rows, loc, stamp, times),
            Rows::NarrowThirtyTwo(rows) => lists::put(rows, loc, stamp, times),
            Rows::Eight(rows) => lists::put(rows, loc, stamp, times),
            Rows::ThirtyTwo(rows) => lists::put(rows, loc, stamp, times),
        }
    }

    /// The later of two times in each lane of the `depth` outermost levels: the lane's, and the location's, where that is below
    /// 2^32, in one step a level. The levels' instances have the numbers `starts`. What the other lanes have then is not told.
    #[inline(always)]
    pub fn later_lanes<V: TimeLanes, L: Ledger>(
        &self,
        loc: usize,
        starts: &[u32; 32],
        depth: usize,
        before: V,
        steps: &mut Steps<L>,
    ) -> V
        requires within { V.count ≤ 32 }
        requires shallow { depth ≤ V.count }
        requires stamp { (row_in self.now loc).stamp < 2 ^ 32 }
        ensures times { (k : ℕ) → k < depth → row_time (row_in self.now loc) (slice_index starts.now k) k < 2 ^ 32 → V.time result k ≡ max (V.time before k) (row_time (row_in self.now loc) (slice_index starts.now k) k) }
        ensures steps { steps.new ≡ steps.old + depth }
    {
        match self {
            Rows::NarrowEight(rows) => lanes::later(rows, loc, starts, depth, before, steps),
            Rows::NarrowThirtyTwo(rows) => lanes::later(rows, loc, starts, depth, before, steps),
            _ => lanes::later_slowly(self, loc, starts, depth, before, steps),
        }
    }

    /// Writes the times of a location at the `depth` outermost levels.
    #[inline(always)]
    pub fn put_lanes<V: TimeLanes>(&mut self, loc: usize, stamp: u64, depth: usize, times: V)
        requires row { HasRow self.old loc depth }
        requires within { V.count ≤ 32 }
        requires depth { depth ≤ V.count }
        ensures given { IsGiven (V.time times) loc stamp depth (row_in self.old) (row_in self.new) }
        ensures size { size self.new ≡ size self.old }
        ensures width { width self.new ≡ width self.old }
        ensures greatest { greatest self.new ≡ greatest self.old }
    {
        if let Rows::NarrowEight(rows) = self {
            lanes::put(rows, loc, stamp, times);
            return;
        }
        if let Rows::NarrowThirtyTwo(rows) = self {
            lanes::put(rows, loc, stamp, times);
            return;
        }
        lanes::put_slowly(self, loc, stamp, depth, times);
    }

    /// Makes the rows from `first` to before `end` read 0 at every level.
    #[inline(always)]
    pub fn clear(&mut self, first: usize, end: usize)
        ensures among { (k : ℕ) → first ≤ k → k < end → (row_in self.new k).stamp ≡ 0 }
        ensures before { (k : ℕ) → k < first → row_in self.new k ≡ row_in self.old k }
        ensures behind { (k : ℕ) → end ≤ k → row_in self.new k ≡ row_in self.old k }
        ensures size { size self.new ≡ size self.old }
        ensures width { width self.new ≡ width self.old }
        ensures greatest { greatest self.new ≡ greatest self.old }
    {
        match self {
            Rows::NarrowEight(rows) => lists::clear(rows, first, end),
            Rows::NarrowThirtyTwo(rows) => lists::clear(rows, first, end),
            Rows::Eight(rows) => lists::clear(rows, first, end),
            Rows::ThirtyTwo(rows) => lists::clear(rows, first, end),
        }
    }

    /// Gives a location the row of another, or a blank one where that has none.
    #[inline]
    pub fn copy(&mut self, from: usize, to: usize)
        requires { to < size self.old }
        ensures here { row_in self.new to ≡ row_in self.old from }
        ensures others { (at : ℕ) → at ≢ to → row_in self.new at ≡ row_in self.old at }
        ensures size { size self.new ≡ size self.old }
        ensures width { width self.new ≡ width self.old }
        ensures greatest { greatest self.new ≡ greatest self.old }
    {
        match self {
            Rows::NarrowEight(rows) => lists::copy(rows, from, to),
            Rows::NarrowThirtyTwo(rows) => lists::copy(rows, from, to),
            Rows::Eight(rows) => lists::copy(rows, from, to),
            Rows::ThirtyTwo(rows) => lists::copy(rows, from, to),
        }
    }

    /// Gives a location the times of an operation that waits for these times alone: each, and the latency more, modulo 2^64.
    /// Raises each level's path to them.
    #[inline]
    pub fn write_none(
        &mut self,
        to: usize,
        stamp: u64,
        before: &[u64],
        latency: u64,
        paths: &mut [u64],
    )
        requires row { HasRow self.old to (length before.now) }
        requires within { (k : ℕ) → k < length before.now → delayed (slice_index before.now k) latency ≤ greatest self.old }
        requires paths { length paths.old ≡ length before.now }
        ensures given { IsGiven (after_none before.now latency) to stamp (length before.now) (row_in self.old) (row_in self.new) }
        ensures raised { AreRaised (after_none before.now latency) (length before.now) paths.old paths.new }
        ensures size { size self.new ≡ size self.old }
        ensures width { width self.new ≡ width self.old }
        ensures greatest { greatest self.new ≡ greatest self.old }
    {
        match self {
            Rows::NarrowEight(rows) => given::write_none(rows, to, stamp, before, latency, paths),
            Rows::NarrowThirtyTwo(rows) => given::write_none(
                rows, to, stamp, before, latency, paths,
            ),
            Rows::Eight(rows) => given::write_none(rows, to, stamp, before, latency, paths),
            Rows::ThirtyTwo(rows) => given::write_none(rows, to, stamp, before, latency, paths),
        }
    }

    /// Gives a location the times of an operation that waits for these times and for another location's. The levels'
    /// instances have these numbers. Raises each level's path to them, in one step
    /// a level.
    #[inline]
    pub fn write_one<L: Ledger>(
        &mut self,
        from: usize,
        to: usize,
        numbers: &[u64],
        stamp: u64,
        before: &[u64],
        latency: u64,
        paths: &mut [u64],
        steps: &mut Steps<L>,
    )
        requires row { HasRow self.old to (length before.now) }
        requires within { (k : ℕ) → k < length before.now → delayed (max (row_time (row_in self.old from) (slice_index numbers.now k) k) (slice_index before.now k)) latency ≤ greatest self.old }
        requires live { length before.now ≡ length numbers.now }
        requires paths { length paths.old ≡ length before.now }
        requires rising { AreRising 0 numbers.now }
        ensures given { IsGiven (after_row (row_in self.old from) numbers.now before.now latency) to stamp (length before.now) (row_in self.old) (row_in self.new) }
        ensures raised { AreRaised (after_row (row_in self.old from) numbers.now before.now latency) (length before.now) paths.old paths.new }
        ensures steps { steps.new ≡ steps.old + length before.now }
        ensures size { size self.new ≡ size self.old }
        ensures width { width self.new ≡ width self.old }
        ensures greatest { greatest self.new ≡ greatest self.old }
    {
        match self {
            Rows::NarrowEight(rows) => {
                given::write_one(
                    rows, from, to, numbers, stamp, before, latency, paths, steps,
                )
            }
            Rows::NarrowThirtyTwo(rows) => {
                given::write_one(
                    rows, from, to, numbers, stamp, before, latency, paths, steps,
                )
            }
            Rows::Eight(rows) => {
                given::write_one(
                    rows, from, to, numbers, stamp, before, latency, paths, steps,
                )
            }
            Rows::ThirtyTwo(rows) => {
                given::write_one(
                    rows, from, to, numbers, stamp, before, latency, paths, steps,
                )
            }
        }
    }

    /// `write_one` with two locations, in two steps a level.
    #[inline]
    pub fn write_both<L: Ledger>(
        &mut self,
        left: usize,
        right: usize,
        to: usize,
        numbers: &[u64],
        stamp: u64,
        before: &[u64],
        latency: u64,
        paths: &mut [u64],
        steps: &mut Steps<L>,
    )
        requires row { HasRow self.old to (length before.now) }
        requires within { (k : ℕ) → k < length before.now → delayed (max (max (row_time (row_in self.old left) (slice_index numbers.now k) k) (row_time (row_in self.old right) (slice_index numbers.now k) k)) (slice_index before.now k)) latency ≤ greatest self.old }
        requires live { length before.now ≡ length numbers.now }
        requires paths { length paths.old ≡ length before.now }
        requires rising { AreRising 0 numbers.now }
        ensures given { IsGiven (after_rows (row_in self.old left) (row_in self.old right) numbers.now before.now latency) to stamp (length before.now) (row_in self.old) (row_in self.new) }
        ensures raised { AreRaised (after_rows (row_in self.old left) (row_in self.old right) numbers.now before.now latency) (length before.now) paths.old paths.new }
        ensures steps { steps.new ≡ steps.old + 2 * length before.now }
        ensures size { size self.new ≡ size self.old }
        ensures width { width self.new ≡ width self.old }
        ensures greatest { greatest self.new ≡ greatest self.old }
    {
        match self {
            Rows::NarrowEight(rows) => {
                given::write_both(
                    rows, left, right, to, numbers, stamp, before, latency, paths, steps,
                )
            }
            Rows::NarrowThirtyTwo(rows) => {
                given::write_both(
                    rows, left, right, to, numbers, stamp, before, latency, paths, steps,
                )
            }
            Rows::Eight(rows) => {
                given::write_both(
                    rows, left, right, to, numbers, stamp, before, latency, paths, steps,
                )
            }
            Rows::ThirtyTwo(rows) => {
                given::write_both(
                    rows, left, right, to, numbers, stamp, before, latency, paths, steps,
                )
            }
        }
    }
}
