//! The shadow of registers.
ghost use Rattle.std.specs.Prelude.{◌≡◌, ℕ, ◌≤◌};
ghost use Rattle.k_shadow.specs.Content.{empty};
ghost use Rattle.k_shadow_rows.specs.Rows.{row_in};

use k_num::NoMemory;
use k_shadow::{Shadow, Steps, TimeLanes, Versions};
use k_shadow_rows::Rows;
use std::alloc::Global;
use std::sync::ledger::Ledger;

/// A shadow over absolute register numbers, which are below 2,097,152.
///
/// Rows have times for 8 levels until a location is reserved while more are live: then all have times for 32. They are
/// narrow, in 40 bytes or 136, until a time above 4,294,967,295 is admitted: from then on all take 72 or 264.
///
/// A frame that ends gives its numbers back, and their rows stay: a row's stamp alone tells at which levels its times
/// are live, so entering or leaving a level writes no row.
#[derive(Drop)]
pub struct ShadowRegs {
    rows: Rows,
    versions: Versions,
    alloc: Global,
    ghost stamped: { (loc : ℕ) → (row_in rows loc).stamp ≤ versions.given },
}

impl ShadowRegs {
    /// No level is live.
    pub fn new(alloc: Global) -> ShadowRegs
        ensures empty { ⟦<ShadowRegs as Shadow>⟧.content result ≡ empty 2097152 }
    {
        ShadowRegs {
            rows: Rows::new(alloc),
            versions: Versions::new(),
            alloc,
        }
    }
}

impl Shadow for ShadowRegs {
    ghost use Rattle.std.specs.Prelude.{length};
    ghost use Rattle.k_shadow.specs.Rows.{content_of};
    ghost use Rattle.k_shadow_rows.specs.Rows.{row_in, greatest, HasRow};

    ghost content = { λ s. content_of (row_in s.rows) s.versions 2097152 };

    ghost room = { λ s loc most. HasRow s.rows loc (length s.versions.live) × (most ≤ greatest s.rows) };

    #[inline]
    fn depth(&self) -> usize {
        self.versions.depth()
    }

    #[inline]
    fn enter(&mut self) {
        self.versions.enter();
    }

    #[inline]
    fn leave(&mut self) {
        self.versions.leave();
    }

    #[inline]
    fn reserve(&mut self, first: u32, count: u32) -> Result<(), NoMemory> {
        self.admit(first, count, u64::MAX)
    }

    #[inline]
    fn admit(&mut self, first: u32, count: u32, most: u64) -> Result<(), NoMemory> {
        if count == 0 {
            return Ok(());
        }
        let depth = self.versions.depth();
        self.rows
            .reserve((first + count) as usize, depth, most, self.alloc)
    }

    #[inline]
    fn read<L: Ledger>(&self, loc: u32, level: usize, steps: &mut Steps<L>) -> u64 {
        self.rows
            .time(loc as usize, self.versions.number(level), level, steps)
    }

    #[inline]
    fn raise<L: Ledger>(&self, loc: u32, times: &mut [u64], steps: &mut Steps<L>) {
        self.rows
            .raise(loc as usize, self.versions.live(), times, steps);
    }

    #[inline]
    fn latest<L: Ledger>(&self, loc: u32, before: &[u64], times: &mut [u64], steps: &mut Steps<L>) {
        self.rows
            .latest(loc as usize, self.versions.live(), before, times, steps);
    }

    #[inline(always)]
    fn later_lanes<V: TimeLanes, L: Ledger>(&self, loc: u32, before: V, steps: &mut Steps<L>) -> V {
        let depth = self.versions.depth();
        let starts = self.versions.starts();
        self.rows
            .later_lanes(loc as usize, starts, depth, before, steps)
    }

    #[inline]
    fn write_after(&mut self, before: &[u64], latency: u64, to: u32, paths: &mut [u64]) {
        let stamp = self.versions.last_given();
        self.rows
            .write_none(to as usize, stamp, before, latency, paths);
    }

    #[inline]
    fn write_after_one<L: Ledger>(
        &mut self,
        from: u32,
        before: &[u64],
        latency: u64,
        to: u32,
        paths: &mut [u64],
        steps: &mut Steps<L>,
    ) {
        let stamp = self.versions.last_given();
        self.rows.write_one(
            from as usize,
            to as usize,
            self.versions.live(),
            stamp,
            before,
            latency,
            paths,
            steps,
        );
    }

    #[inline]
    fn write_after_two<L: Ledger>(
        &mut self,
        left: u32,
        right: u32,
        before: &[u64],
        latency: u64,
        to: u32,
        paths: &mut [u64],
        steps: &mut Steps<L>,
    ) {
        let stamp = self.versions.last_given();
        self.rows.write_both(
            left as usize,
            right as usize,
            to as usize,
            self.versions.live(),
            stamp,
            before,
            latency,
            paths,
            steps,
        );
    }

    #[inline]
    fn pass<L: Ledger>(&mut self, from: u32, to: u32, times: &mut [u64], steps: &mut Steps<L>) {
        self.raise(from, times, steps);
        self.rows.copy(from as usize, to as usize);
    }

    #[inline]
    fn put(&mut self, loc: u32, times: &[u64]) {
        let stamp = self.versions.last_given();
        self.rows.put(loc as usize, stamp, times);
    }

    #[inline(always)]
    fn put_lanes<V: TimeLanes>(&mut self, loc: u32, times: V) {
        let stamp = self.versions.last_given();
        let depth = self.versions.depth();
        self.rows.put_lanes(loc as usize, stamp, depth, times);
    }

    #[inline(always)]
    fn clear(&mut self, first: u32, count: u32) {
        if self.versions.depth() > 0 {
            self.rows.clear(first as usize, (first + count) as usize);
        }
    }
}
