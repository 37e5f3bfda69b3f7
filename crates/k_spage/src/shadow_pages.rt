//! The shadow of memory.
ghost use Rattle.std.specs.Prelude.{◌≡◌, ℕ, ◌≤◌};
ghost use Rattle.k_shadow.specs.Content.{empty};
ghost use Rattle.k_spage.specs.Pages.{paged_row, ArePages};

use crate::pages;
use crate::pages::PAGE;
use k_num::NoMemory;
use k_shadow::{Shadow, Steps, TimeLanes, Times, Versions};
use k_shadow_rows::Rows;
use slab::Slab;
use std::alloc::Global;
use std::sync::ledger::Ledger;

/// A shadow over element numbers, which are below 4,194,304.
///
/// Pages of 256 locations stand in a slab, and a table names the page of a location. `reserve` and `admit` alone make pages.
/// The rows of a page have times for 8 levels until it is reserved while more are live; from then on they have times for 32.
/// They are narrow, in 40 bytes each or 136, until a time above 4,294,967,295 is admitted to the page; from then on each
/// takes 72 or 264. A row's stamp tells at which levels its times are live, so entering or leaving a level writes no row.
#[derive(Drop)]
pub struct ShadowPages {
    pages: Slab<Rows>,
    table: Vec<Option<usize>>,
    versions: Versions,
    alloc: Global,
    ghost kept: { ArePages pages.slots table.items },
    ghost stamped: { (loc : ℕ) → (paged_row pages.slots table.items loc).stamp ≤ versions.given },
}

impl ShadowPages {
    ghost use Rattle.std.specs.Prelude.{false};
    ghost use Rattle.k_spage.specs.ShadowPages.{has_page, page_count};

    /// No level is live, and there is no page.
    pub fn new(alloc: Global) -> ShadowPages
        ensures empty { ⟦<ShadowPages as Shadow>⟧.content result ≡ empty 4194304 }
        ensures none { (page : ℕ) → has_page result page ≡ false }
    {
        ShadowPages {
            pages: Slab::new(alloc),
            table: Vec::new(alloc),
            versions: Versions::new(),
            alloc,
        }
    }

    /// How many pages there are. Only `reserve` and `admit` make pages, those of their locations.
    pub fn pages(&self) -> u64
        ensures count { result ≡ page_count self.now }
    {
        self.pages.len() as u64
    }
}

impl Shadow for ShadowPages {
    ghost use Rattle.std.specs.Prelude.{◌+◌, ◌<◌, ◌^◌, length, slice_index, OnOk, true};
    ghost use Rattle.k_shadow.specs.Rooms.{HasRoomFor};
    ghost use Rattle.k_shadow.specs.Content.{depth, time_at, entered, level_dropped, written, written_by, cleared};
    ghost use Rattle.k_spage.specs.ShadowPages.{pages_content, has_room, has_page, HasSamePages, IsTouched};

    ghost content = { pages_content };

    ghost room = { has_room };

    #[inline]
    fn depth(&self) -> usize {
        self.versions.depth()
    }

    #[inline]
    fn enter(&mut self)
        requires shallow { depth (pages_content self.old) < 32 }
        requires few { (pages_content self.old).entries < 2 ^ 62 }
        ensures content { pages_content self.new ≡ entered (pages_content self.old) }
        ensures pages { HasSamePages self.old self.new }
    {
        self.versions.enter();
    }

    #[inline]
    fn leave(&mut self)
        requires { 0 < depth (pages_content self.old) }
        ensures content { pages_content self.new ≡ level_dropped (pages_content self.old) }
        ensures pages { HasSamePages self.old self.new }
    {
        self.versions.leave();
    }

    #[inline]
    fn reserve(&mut self, first: u32, count: u32) -> Result<(), NoMemory>
        requires { first + count ≤ (pages_content self.old).limit }
        ensures content { pages_content self.new ≡ pages_content self.old }
        ensures room { OnOk result ((loc most : ℕ) → first ≤ loc → loc < first + count → most < 2 ^ 64 → has_room self.new loc most) }
        ensures kept { (loc most : ℕ) → has_room self.old loc most → has_room self.new loc most }

        // It makes the pages of its locations alone. A refusal may have made some of them.
        ensures pages_kept { (page : ℕ) → has_page self.old page ≡ true → has_page self.new page ≡ true }
        ensures no_other { (page : ℕ) → (IsTouched first count page → ⊥) → has_page self.new page ≡ has_page self.old page }
    {
        self.admit(first, count, u64::MAX)
    }

    #[inline]
    fn admit(&mut self, first: u32, count: u32, most: u64) -> Result<(), NoMemory>
        requires { first + count ≤ (pages_content self.old).limit }
        ensures content { pages_content self.new ≡ pages_content self.old }
        ensures room { OnOk result ((loc : ℕ) → first ≤ loc → loc < first + count → has_room self.new loc most) }
        ensures kept { (loc most : ℕ) → has_room self.old loc most → has_room self.new loc most }

        // It makes the pages of its locations alone. A refusal may have made some of them.
        ensures pages_kept { (page : ℕ) → has_page self.old page ≡ true → has_page self.new page ≡ true }
        ensures no_other { (page : ℕ) → (IsTouched first count page → ⊥) → has_page self.new page ≡ has_page self.old page }
    {
        let depth = self.versions.depth();
        let page = first as usize / PAGE;
        if count == 1 && pages::has_rows_for(&self.pages, &self.table, page, depth, most) {
            return Ok(());
        }
        let end = (first + count) as usize;
        pages::make_pages(
            self.alloc,
            &mut self.pages,
            &mut self.table,
            first as usize,
            end,
            depth,
            most,
        )
    }

    #[inline]
    fn read<L: Ledger>(&self, loc: u32, level: usize, steps: &mut Steps<L>) -> u64 {
        let number = self.versions.number(level);
        let location = loc as usize;
        pages::time_of(&self.pages, &self.table, location, number, level, steps)
    }

    #[inline]
    fn raise<L: Ledger>(&self, loc: u32, times: &mut [u64], steps: &mut Steps<L>) {
        let numbers = self.versions.live();
        pages::raise(
            &self.pages,
            &self.table,
            loc as usize,
            numbers,
            times,
            steps,
        );
    }

    #[inline]
    fn latest<L: Ledger>(&self, loc: u32, before: &[u64], times: &mut [u64], steps: &mut Steps<L>) {
        let numbers = self.versions.live();
        pages::latest(
            &self.pages,
            &self.table,
            loc as usize,
            numbers,
            before,
            times,
            steps,
        );
    }

    #[inline(always)]
    fn later_lanes<V: TimeLanes, L: Ledger>(&self, loc: u32, before: V, steps: &mut Steps<L>) -> V {
        let depth = self.versions.depth();
        let starts = self.versions.starts();
        pages::later_lanes(
            &self.pages,
            &self.table,
            loc as usize,
            starts,
            depth,
            before,
            steps,
        )
    }

    #[inline]
    fn write(&mut self, loc: u32, times: &Times)
        requires below { loc < (pages_content self.old).limit }
        requires each { length times.now ≡ depth (pages_content self.old) }
        requires room { has_room self.old loc 18446744073709551615 }
        ensures content { pages_content self.new ≡ written loc times.now (pages_content self.old) }
        ensures kept { (at most : ℕ) → has_room self.old at most → has_room self.new at most }
        ensures pages { HasSamePages self.old self.new }
    {
        let each = times.as_slice();
        self.put(loc, each);
    }

    #[inline]
    fn put(&mut self, loc: u32, times: &[u64])
        requires below { loc < (pages_content self.old).limit }
        requires each { length times.now ≡ depth (pages_content self.old) }
        requires room { HasRoomFor (has_room self.old loc) (depth (pages_content self.old)) (slice_index times.now) }
        ensures content { pages_content self.new ≡ written loc times.now (pages_content self.old) }
        ensures kept { (at most : ℕ) → has_room self.old at most → has_room self.new at most }
        ensures pages { HasSamePages self.old self.new }
    {
        let stamp = self.versions.last_given();
        let key = pages::key_of_page(&self.table, loc as usize / PAGE);
        pages::put(&mut self.pages, key, loc as usize % PAGE, stamp, times);
    }

    #[inline(always)]
    fn put_lanes<V: TimeLanes>(&mut self, loc: u32, times: V)
        requires below { loc < (pages_content self.old).limit }
        requires within { V.count ≤ 32 }
        requires shallow { depth (pages_content self.old) ≤ V.count }
        requires room { has_room self.old loc 4294967295 }
        ensures content { pages_content self.new ≡ written_by loc (V.time times) (pages_content self.old) }
        ensures kept { (at most : ℕ) → has_room self.old at most → has_room self.new at most }
        ensures pages { HasSamePages self.old self.new }
    {
        let stamp = self.versions.last_given();
        let depth = self.versions.depth();
        let key = pages::key_of_page(&self.table, loc as usize / PAGE);
        pages::put_lanes(
            &mut self.pages,
            key,
            loc as usize % PAGE,
            stamp,
            depth,
            times,
        );
    }

    fn clear(&mut self, first: u32, count: u32)
        requires { first + count ≤ (pages_content self.old).limit }
        ensures content { pages_content self.new ≡ cleared first count (pages_content self.old) }
        ensures kept { (at most : ℕ) → has_room self.old at most → has_room self.new at most }
        ensures pages { HasSamePages self.old self.new }
    {
        if self.versions.depth() > 0 {
            pages::clear_locations(
                &mut self.pages,
                &self.table,
                first as usize,
                (first + count) as usize,
            );
        }
    }
}
