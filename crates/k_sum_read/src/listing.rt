//! The lines of the regions and of the entries.
ghost use Rattle.std.specs.Prelude.{◌≡◌, ◌≤◌, ◌++◌, ◌∷◌, [], ◌↔◌, IsTrue, List, length};
ghost use Rattle.k_dict_entries.specs.declared.entry.Entry.{Entry as EntryValue};
ghost use Rattle.k_dict_saved.specs.Reading.{seen};
ghost use Rattle.k_optab.specs.declared.region.Region.{Region as RegionValue};
ghost use Rattle.k_sum_read.specs.Reading.{FoundListing, LastIsBehind, ListsEntries, ListsRegions};

use k_dict_entries::{Entry, EntryTable};
use k_dict_saved::{Extent, Format, Halt, Stop, count_line, named, next_entry, next_region};
use k_num::{NoMemory, Seq};
use k_optab::Region;
use k_sum_order::compare;
use std::alloc::Global;

/// What the lines of the regions and of the entries tell.
#[derive(Drop)]
pub(crate) struct Listing {
    pub regions: Seq<Region>,
    pub entries: EntryTable,
    /// How large the tree of each entry is.
    pub extents: Seq<Extent>,
}

/// The lines of so many regions.
fn regions(alloc: Global, count: u32, text: &[u8]) -> Result<(Seq<Region>, &[u8]), Halt>
    ensures { ListsRegions count text.now (seen (λ found. (found.0, found.1.now)) result) }
{
    let mut regions: Seq<Region> = Seq::new(alloc);
    let mut rest = text;
    'lines: while regions.len() < count as usize {
        match next_region(alloc, regions.as_slice(), rest) {
            Err(Stop::Wrong) => return Err(Halt::Wrong(rest.len())),
            Err(Stop::Memory) => return Err(Halt::Memory),
            Ok((region, behind)) => {
                if let Err(NoMemory) = regions.push(region) {
                    return Err(Halt::Memory);
                }
                rest = behind;
            }
        }
    }
    Ok((regions, rest))
}

/// Whether an entry comes behind the last of these.
fn is_behind(before: &[Entry], entry: &Entry) -> bool
    ensures { (entries : List EntryValue) → entries ≡ before.now ++ entry.now ∷ [] → IsTrue result ↔ LastIsBehind entries }
{
    match before.split_last() {
        None => true,
        Some((last, _)) => compare(last, entry).is_lt(),
    }
}

/// Whether the last of entries comes behind the one before it.
fn ends_in_order(entries: &[Entry]) -> bool
    ensures { IsTrue result ↔ LastIsBehind entries.now }
{
    match entries.split_last() {
        None => true,
        Some((entry, before)) => is_behind(before, entry),
    }
}

/// The lines of so many entries, which stand in order, and how large their trees are.
fn entries(
    alloc: Global,
    regions: u32,
    count: u32,
    text: &[u8],
) -> Result<(EntryTable, Seq<Extent>, &[u8]), Halt>
    requires { count ≤ 1048576 }
    ensures { (list : List RegionValue) → length list ≡ regions → ListsEntries list count text.now (seen (λ found. (found.0, found.1, found.2.now)) result) }
{
    let mut table = EntryTable::new(alloc);
    let mut extents = Seq::new(alloc);
    let mut rest = text;
    'lines: while table.len() < count {
        match next_entry(alloc, Format::Two, regions, &mut table, &mut extents, rest) {
            Err(Stop::Wrong) => return Err(Halt::Wrong(rest.len())),
            Err(Stop::Memory) => return Err(Halt::Memory),
            Ok(behind) => {
                if !ends_in_order(table.entries()) {
                    return Err(Halt::Wrong(rest.len()));
                }
                rest = behind;
            }
        }
    }
    Ok((table, extents, rest))
}

/// The lines of the regions and of the entries.
pub(crate) fn list_lines(alloc: Global, text: &[u8]) -> Result<(Listing, &[u8]), Halt>
    ensures { FoundListing text.now (seen (λ found. (found.0, found.1.now)) result) }
{
    let Some((count, region_text)) = named(b"regions ", 1, 524_288, text) else {
        return Err(Halt::Wrong(text.len()));
    };
    match regions(alloc, count as u32, region_text) {
        Err(halt) => Err(halt),
        Ok((list, count_text)) => match count_line(list.as_slice(), count_text) {
            None => {
                drop(list);
                Err(Halt::Wrong(count_text.len()))
            }
            Some((number, entry_text)) => {
                match entries(alloc, list.len() as u32, number, entry_text) {
                    Err(halt) => {
                        drop(list);
                        Err(halt)
                    }
                    Ok((table, extents, rest)) => Ok((
                        Listing {
                            regions: list,
                            entries: table,
                            extents,
                        },
                        rest,
                    )),
                }
            }
        },
    }
}
