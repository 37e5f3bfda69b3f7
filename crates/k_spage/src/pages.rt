//! Pages of rows, and the table that names them.
ghost use Rattle.std.specs.Prelude.{◌≡◌, ◌≢◌, ℕ, ◌+◌, ◌-◌, ◌*◌, ◌/◌, ◌%◌, ◌^◌, ◌<◌, ◌≤◌, length, max, None, true, slice_index, option_copied, count_by, IfOk, IsSome, is_some, OnOk, Some};
ghost use Rattle.slab.specs.Slab.{HasRoomFor};
ghost use Rattle.k_shadow.specs.Numbers.{AreRising};
ghost use Rattle.k_shadow.specs.Rows.{row_time, unwritten};
ghost use Rattle.k_shadow_rows.specs.Given.{IsGiven};
ghost use Rattle.k_shadow_rows.specs.Rows.{row_in, size, width, greatest};
ghost use Rattle.k_spage.specs.Pages.{rows_under, key_of, page_row, page_size, page_width, page_greatest, paged_row, paged_width, paged_greatest, ArePages, HasRowsFor, IsOnePage};

use k_num::NoMemory;
use k_shadow::{Steps, TimeLanes, copy_to};
use k_shadow_rows::Rows;
use slab::Slab;
use std::alloc::Global;
use std::sync::ledger::Ledger;

/// How many locations a page has.
pub const PAGE: usize = 256;

/// The key of the page of that number, if it is there.
#[inline]
fn key_of(table: &[Option<usize>], page: usize) -> Option<usize>
    ensures { result ≡ key_of table.now page }
{
    match table.get(page) {
        Some(key) => *key,
        None => None,
    }
}

/// The key of the page of that number, which is there.
#[inline]
pub fn key_of_page(table: &[Option<usize>], page: usize) -> usize
    requires { IsSome (key_of table.now page) }
    ensures { Some result ≡ key_of table.now page }
{
    match table[page] {
        Some(key) => key,
        None => unreachable!(),
    }
}

/// The rows of the page of that number, if it is there.
#[inline]
fn rows_of<'a>(pages: &'a Slab<Rows>, table: &[Option<usize>], page: usize) -> Option<&'a Rows>
    ensures { option_copied result ≡ rows_under pages.now.slots (key_of table.now page) }
{
    match key_of(table, page) {
        Some(key) => pages.get(key),
        None => None,
    }
}

/// Tells that the page of that number is there, and that its rows can have times of up to `most` for `depth` levels.
#[inline]
pub fn has_rows_for(
    pages: &Slab<Rows>,
    table: &[Option<usize>],
    page: usize,
    depth: usize,
    most: u64,
) -> bool
    ensures { result ≡ true → HasRowsFor pages.now.slots table.now depth most page }
{
    match rows_of(pages, table, page) {
        Some(rows) => depth <= rows.width() && most <= rows.greatest(),
        None => false,
    }
}

/// The time of a location at a level, whose instance has that number, in one step: 0 where its page is not there.
#[inline]
pub fn time_of<L: Ledger>(
    pages: &Slab<Rows>,
    table: &[Option<usize>],
    loc: usize,
    number: u64,
    level: usize,
    steps: &mut Steps<L>,
) -> u64
    ensures time { result ≡ row_time (paged_row pages.now.slots table.now loc) number level }
    ensures step { steps.new ≡ steps.old + 1 }
{
    match rows_of(pages, table, loc / PAGE) {
        Some(rows) => rows.time(loc % PAGE, number, level, steps),
        None => {
            steps.tick();
            0
        }
    }
}

/// Raises each of these times to the location's at its level, where it is lower, in one step a level. The levels'
/// instances have these numbers.
#[inline]
pub fn raise<L: Ledger>(
    pages: &Slab<Rows>,
    table: &[Option<usize>],
    loc: usize,
    numbers: &[u64],
    times: &mut [u64],
    steps: &mut Steps<L>,
)
    requires each { length times.old ≡ length numbers.now }
    requires rising { AreRising 0 numbers.now }
    ensures raised { (k : ℕ) → k < length numbers.now → slice_index times.new k ≡ max (slice_index times.old k) (row_time (paged_row pages.now.slots table.now loc) (slice_index numbers.now k) k) }
    ensures steps { steps.new ≡ steps.old + length numbers.now }
{
    match rows_of(pages, table, loc / PAGE) {
        Some(rows) => rows.raise(loc % PAGE, numbers, times, steps),
        None => steps.tick_each(numbers),
    }
}

/// Fills the list with the later of two times at each level, `before`'s and the location's, in one step a level. The
/// levels' instances have these numbers.
#[inline]
pub fn latest<L: Ledger>(
    pages: &Slab<Rows>,
    table: &[Option<usize>],
    loc: usize,
    numbers: &[u64],
    before: &[u64],
    times: &mut [u64],
    steps: &mut Steps<L>,
)
    requires each { length before.now ≡ length numbers.now }
    requires times { length times.old ≡ length numbers.now }
    requires rising { AreRising 0 numbers.now }
    ensures times { (k : ℕ) → k < length numbers.now → slice_index times.new k ≡ max (row_time (paged_row pages.now.slots table.now loc) (slice_index numbers.now k) k) (slice_index before.now k) }
    ensures steps { steps.new ≡ steps.old + length numbers.now }
{
    match rows_of(pages, table, loc / PAGE) {
        Some(rows) => rows.latest(loc % PAGE, numbers, before, times, steps),
        None => {
            steps.tick_each(numbers);
            copy_to(times, before);
        }
    }
}

/// The later of two times in each lane of the `depth` outermost levels: the lane's, and the location's, where that is below
/// 2^32, in one step a level. The levels' instances have the numbers `starts`. What the other lanes have then is not told.
#[inline(always)]
pub fn later_lanes<V: TimeLanes, L: Ledger>(
    pages: &Slab<Rows>,
    table: &[Option<usize>],
    loc: usize,
    starts: &[u32; 32],
    depth: usize,
    before: V,
    steps: &mut Steps<L>,
) -> V
    requires within { V.count ≤ 32 }
    requires shallow { depth ≤ V.count }
    requires stamp { (paged_row pages.now.slots table.now loc).stamp < 2 ^ 32 }
    ensures times { (k : ℕ) → k < depth → row_time (paged_row pages.now.slots table.now loc) (slice_index starts.now k) k < 2 ^ 32 → V.time result k ≡ max (V.time before k) (row_time (paged_row pages.now.slots table.now loc) (slice_index starts.now k) k) }
    ensures steps { steps.new ≡ steps.old + depth }
{
    match rows_of(pages, table, loc / PAGE) {
        Some(rows) => rows.later_lanes(loc % PAGE, starts, depth, before, steps),
        None => {
            steps.tick_levels(depth);
            before
        }
    }
}

/// Writes the times of the row at a place of the page at a key, at the `depth` outermost levels.
#[inline(always)]
pub fn put_lanes<V: TimeLanes>(
    pages: &mut Slab<Rows>,
    key: usize,
    place: usize,
    stamp: u64,
    depth: usize,
    times: V,
)
    requires row { place < page_size (rows_under pages.old.slots (Some key)) }
    requires few { depth ≤ page_width (rows_under pages.old.slots (Some key)) }
    requires within { V.count ≤ 32 }
    requires depth { depth ≤ V.count }
    ensures page { IsOnePage pages.old.slots pages.new.slots key }
    ensures given { IsGiven (V.time times) place stamp depth (page_row (rows_under pages.old.slots (Some key))) (page_row (rows_under pages.new.slots (Some key))) }
{
    let rows = &mut pages[key];
    rows.put_lanes(place, stamp, depth, times);
}

/// Writes the times of the row at a place of the page at a key.
#[inline]
pub fn put(pages: &mut Slab<Rows>, key: usize, place: usize, stamp: u64, times: &[u64])
    requires within { place < page_size (rows_under pages.old.slots (Some key)) }
    requires few { length times.now ≤ page_width (rows_under pages.old.slots (Some key)) }
    requires times { (k : ℕ) → k < length times.now → slice_index times.now k ≤ page_greatest (rows_under pages.old.slots (Some key)) }
    ensures page { IsOnePage pages.old.slots pages.new.slots key }
    ensures given { IsGiven (slice_index times.now) place stamp (length times.now) (page_row (rows_under pages.old.slots (Some key))) (page_row (rows_under pages.new.slots (Some key))) }
{
    let rows = &mut pages[key];
    rows.put(place, stamp, times);
}

/// Makes the rows at the places from `first` to before `end` of the page at a key read 0 at every level.
fn clear_rows(pages: &mut Slab<Rows>, key: usize, first: usize, end: usize)
    requires there { IsSome (rows_under pages.old.slots (Some key)) }
    ensures page { IsOnePage pages.old.slots pages.new.slots key }
    ensures among { (k : ℕ) → first ≤ k → k < end → (page_row (rows_under pages.new.slots (Some key)) k).stamp ≡ 0 }
    ensures before { (k : ℕ) → k < first → page_row (rows_under pages.new.slots (Some key)) k ≡ page_row (rows_under pages.old.slots (Some key)) k }
    ensures behind { (k : ℕ) → end ≤ k → page_row (rows_under pages.new.slots (Some key)) k ≡ page_row (rows_under pages.old.slots (Some key)) k }
{
    let rows = &mut pages[key];
    rows.clear(first, end);
}

/// Makes the rows of the page at a key have times of up to `most` for `depth` levels. A refusal leaves them as they were
/// seen.
fn widen_rows(
    alloc: Global,
    pages: &mut Slab<Rows>,
    key: usize,
    depth: usize,
    most: u64,
) -> Result<(), NoMemory>
    requires size { page_size (rows_under pages.old.slots (Some key)) ≡ 256 }
    requires shallow { depth ≤ 32 }
    ensures page { IsOnePage pages.old.slots pages.new.slots key }
    ensures same { (k : ℕ) → page_row (rows_under pages.new.slots (Some key)) k ≡ page_row (rows_under pages.old.slots (Some key)) k }
    ensures ok { OnOk result ((depth ≤ page_width (rows_under pages.new.slots (Some key))) × (most ≤ page_greatest (rows_under pages.new.slots (Some key)))) }
{
    let rows = &mut pages[key];
    rows.reserve(PAGE, depth, most, alloc)
}

/// The rows of a page that was never written, which can have times of up to `most` for `depth` levels.
fn blank_page(alloc: Global, depth: usize, most: u64) -> Result<Rows, NoMemory>
    requires { depth ≤ 32 }
    ensures size { IfOk result (λ rows. size rows ≡ 256) }
    ensures blank { IfOk result (λ rows. (place : ℕ) → row_in rows place ≡ unwritten) }
    ensures wide { IfOk result (λ rows. depth ≤ width rows) }
    ensures great { IfOk result (λ rows. most ≤ greatest rows) }
{
    let mut rows = Rows::new(alloc);
    if let Err(NoMemory) = rows.reserve(PAGE, depth, most, alloc) {
        drop(rows);
        return Err(NoMemory);
    }
    Ok(rows)
}

/// Makes the rows of the page of that number have times of up to `most` for `depth` levels, and makes the page where it is
/// not there. A refusal leaves all rows as they were seen.
fn make_page(
    alloc: Global,
    pages: &mut Slab<Rows>,
    table: &mut Vec<Option<usize>>,
    page: usize,
    depth: usize,
    most: u64,
) -> Result<(), NoMemory>
    requires pages { ArePages pages.old.slots table.old.items }
    requires few { page < 16384 }
    requires shallow { depth ≤ 32 }
    ensures pages { ArePages pages.new.slots table.new.items }
    ensures same { (loc : ℕ) → paged_row pages.new.slots table.new.items loc ≡ paged_row pages.old.slots table.old.items loc }
    ensures kept { (other : ℕ) → IsSome (key_of table.old.items other) → IsSome (key_of table.new.items other) }
    ensures wider { (other : ℕ) → paged_width pages.old.slots table.old.items other ≤ paged_width pages.new.slots table.new.items other }
    ensures greater { (other : ℕ) → paged_greatest pages.old.slots table.old.items other ≤ paged_greatest pages.new.slots table.new.items other }
    ensures others { (other : ℕ) → other ≢ page → key_of table.new.items other ≡ key_of table.old.items other }
    ensures ok { OnOk result (HasRowsFor pages.new.slots table.new.items depth most page) }
{
    if let Some(key) = key_of(table, page) {
        return widen_page(alloc, pages, table, page, key, depth, most);
    }
    new_page(alloc, pages, table, page, depth, most)
}

/// Makes the rows of the page of that number, which is at that key, have times of up to `most` for `depth` levels. A refusal
/// leaves all rows as they were seen.
fn widen_page(
    alloc: Global,
    pages: &mut Slab<Rows>,
    table: &[Option<usize>],
    page: usize,
    key: usize,
    depth: usize,
    most: u64,
) -> Result<(), NoMemory>
    requires pages { ArePages pages.old.slots table.now }
    requires named { key_of table.now page ≡ Some key }
    requires shallow { depth ≤ 32 }
    ensures pages { ArePages pages.new.slots table.now }
    ensures same { (loc : ℕ) → paged_row pages.new.slots table.now loc ≡ paged_row pages.old.slots table.now loc }
    ensures wider { (other : ℕ) → paged_width pages.old.slots table.now other ≤ paged_width pages.new.slots table.now other }
    ensures greater { (other : ℕ) → paged_greatest pages.old.slots table.now other ≤ paged_greatest pages.new.slots table.now other }
    ensures ok { OnOk result (HasRowsFor pages.new.slots table.now depth most page) }
{
    widen_rows(alloc, pages, key, depth, most)
}

/// Makes the page of that number, which is not there, whose rows can have times of up to `most` for `depth` levels. A refusal
/// leaves all rows as they were.
fn new_page(
    alloc: Global,
    pages: &mut Slab<Rows>,
    table: &mut Vec<Option<usize>>,
    page: usize,
    depth: usize,
    most: u64,
) -> Result<(), NoMemory>
    requires pages { ArePages pages.old.slots table.old.items }
    requires absent { key_of table.old.items page ≡ None }
    requires few { page < 16384 }
    requires shallow { depth ≤ 32 }
    ensures pages { ArePages pages.new.slots table.new.items }
    ensures same { (loc : ℕ) → paged_row pages.new.slots table.new.items loc ≡ paged_row pages.old.slots table.old.items loc }
    ensures kept { (other : ℕ) → IsSome (key_of table.old.items other) → IsSome (key_of table.new.items other) }
    ensures wider { (other : ℕ) → paged_width pages.old.slots table.old.items other ≤ paged_width pages.new.slots table.new.items other }
    ensures greater { (other : ℕ) → paged_greatest pages.old.slots table.old.items other ≤ paged_greatest pages.new.slots table.new.items other }
    ensures others { (other : ℕ) → other ≢ page → key_of table.new.items other ≡ key_of table.old.items other }
    ensures ok { OnOk result (HasRowsFor pages.new.slots table.new.items depth most page) }
{
    make_room(pages, table, page + 1)?;
    let rows = blank_page(alloc, depth, most)?;
    add_page(pages, table, page, rows);
    Ok(())
}

/// Makes room for one page more, and for `count` numbers of pages. A refusal leaves all rows as they were.
fn make_room(
    pages: &mut Slab<Rows>,
    table: &mut Vec<Option<usize>>,
    count: usize,
) -> Result<(), NoMemory>
    requires pages { ArePages pages.old.slots table.old.items }
    requires few { count ≤ 16384 }
    ensures pages { ArePages pages.new.slots table.new.items }
    ensures slots { pages.new.slots ≡ pages.old.slots }
    ensures keys { (page : ℕ) → key_of table.new.items page ≡ key_of table.old.items page }
    ensures ok { OnOk result (HasRoomFor pages.new 1 × (count ≤ length table.new.items)) }
{
    pages.reserve(1)?;
    grow_to(table, count)
}

/// Adds a page that is not there.
fn add_page(pages: &mut Slab<Rows>, table: &mut Vec<Option<usize>>, page: usize, rows: Rows)
    requires pages { ArePages pages.old.slots table.old.items }
    requires named { page < length table.old.items }
    requires absent { key_of table.old.items page ≡ None }
    requires room { HasRoomFor pages.old 1 }
    requires size { size rows ≡ 256 }
    requires blank { (place : ℕ) → row_in rows place ≡ unwritten }
    ensures pages { ArePages pages.new.slots table.new.items }
    ensures same { (loc : ℕ) → paged_row pages.new.slots table.new.items loc ≡ paged_row pages.old.slots table.old.items loc }
    ensures kept { (other : ℕ) → IsSome (key_of table.old.items other) → IsSome (key_of table.new.items other) }
    ensures wider { (other : ℕ) → paged_width pages.old.slots table.old.items other ≤ paged_width pages.new.slots table.new.items other }
    ensures greater { (other : ℕ) → paged_greatest pages.old.slots table.old.items other ≤ paged_greatest pages.new.slots table.new.items other }
    ensures others { (other : ℕ) → other ≢ page → key_of table.new.items other ≡ key_of table.old.items other }
    ensures here { HasRowsFor pages.new.slots table.new.items (width rows) (greatest rows) page }
{
    let key = pages.insert_reserved(rows);
    table[page] = Some(key);
}

/// Makes the table have entries for `count` pages at least. A refusal leaves it as it was.
fn grow_to(table: &mut Vec<Option<usize>>, count: usize) -> Result<(), NoMemory>
    ensures same { (page : ℕ) → key_of table.new.items page ≡ key_of table.old.items page }
    ensures counted { count_by is_some table.new.items ≡ count_by is_some table.old.items }
    ensures longest { length table.new.items ≤ max count (length table.old.items) }
    ensures ok { OnOk result (count ≤ length table.new.items) }
{
    if table.len() < count {
        table.resize(count, None)?;
    }
    Ok(())
}

/// Makes the rows of the locations from `first` to before `end` have times of up to `most` for `depth` levels, and makes the
/// pages of these that are not there. A refusal may have done it for some.
pub fn make_pages(
    alloc: Global,
    pages: &mut Slab<Rows>,
    table: &mut Vec<Option<usize>>,
    first: usize,
    end: usize,
    depth: usize,
    most: u64,
) -> Result<(), NoMemory>
    requires pages { ArePages pages.old.slots table.old.items }
    requires few { end ≤ 4194304 }
    requires shallow { depth ≤ 32 }
    ensures pages { ArePages pages.new.slots table.new.items }
    ensures same { (loc : ℕ) → paged_row pages.new.slots table.new.items loc ≡ paged_row pages.old.slots table.old.items loc }
    ensures kept { (other : ℕ) → IsSome (key_of table.old.items other) → IsSome (key_of table.new.items other) }
    ensures wider { (other : ℕ) → paged_width pages.old.slots table.old.items other ≤ paged_width pages.new.slots table.new.items other }
    ensures greater { (other : ℕ) → paged_greatest pages.old.slots table.old.items other ≤ paged_greatest pages.new.slots table.new.items other }
    ensures others { (page : ℕ) → (first < end → first / 256 ≤ page → page ≤ (end - 1) / 256 → ⊥) → key_of table.new.items page ≡ key_of table.old.items page }
    ensures ok { OnOk result ((loc : ℕ) → first ≤ loc → loc < end → HasRowsFor pages.new.slots table.new.items depth most (loc / 256)) }
{
    if first < end {
        for page in first / PAGE..(end - 1) / PAGE + 1 {
            make_page(alloc, pages, table, page, depth, most)?;
        }
    }
    Ok(())
}

/// Makes the rows of the locations from `first` to before `end` read 0 at every level.
pub fn clear_locations(pages: &mut Slab<Rows>, table: &[Option<usize>], first: usize, end: usize)
    requires pages { ArePages pages.old.slots table.now }
    requires few { end ≤ 4194304 }
    ensures pages { ArePages pages.new.slots table.now }
    ensures wider { (other : ℕ) → paged_width pages.old.slots table.now other ≤ paged_width pages.new.slots table.now other }
    ensures greater { (other : ℕ) → paged_greatest pages.old.slots table.now other ≤ paged_greatest pages.new.slots table.now other }
    ensures among { (loc : ℕ) → first ≤ loc → loc < end → (paged_row pages.new.slots table.now loc).stamp ≡ 0 }
    ensures before { (loc : ℕ) → loc < first → paged_row pages.new.slots table.now loc ≡ paged_row pages.old.slots table.now loc }
    ensures behind { (loc : ℕ) → end ≤ loc → paged_row pages.new.slots table.now loc ≡ paged_row pages.old.slots table.now loc }
{
    for page in first / PAGE..(end + (PAGE - 1)) / PAGE {
        let low = first.max(page * PAGE);
        clear_page(pages, table, page, low, end.min((page + 1) * PAGE));
    }
}

/// Makes the rows of the locations from `first` to before `end`, which lie in the page of that number, read 0 at every
/// level, if the page is there.
fn clear_page(
    pages: &mut Slab<Rows>,
    table: &[Option<usize>],
    page: usize,
    first: usize,
    end: usize,
)
    requires pages { ArePages pages.old.slots table.now }
    requires low { page * 256 ≤ first }
    requires some { page * 256 ≤ end }
    requires high { end ≤ (page + 1) * 256 }
    ensures pages { ArePages pages.new.slots table.now }
    ensures wider { (other : ℕ) → paged_width pages.old.slots table.now other ≤ paged_width pages.new.slots table.now other }
    ensures greater { (other : ℕ) → paged_greatest pages.old.slots table.now other ≤ paged_greatest pages.new.slots table.now other }
    ensures among { (loc : ℕ) → first ≤ loc → loc < end → (paged_row pages.new.slots table.now loc).stamp ≡ 0 }
    ensures before { (loc : ℕ) → loc < first → paged_row pages.new.slots table.now loc ≡ paged_row pages.old.slots table.now loc }
    ensures behind { (loc : ℕ) → end ≤ loc → paged_row pages.new.slots table.now loc ≡ paged_row pages.old.slots table.now loc }
{
    if let Some(key) = key_of(table, page) {
        clear_rows(pages, key, first - page * PAGE, end - page * PAGE);
    }
}
