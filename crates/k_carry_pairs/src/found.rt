//! The pairs that are found, sorted.
ghost use Rattle.std.specs.Prelude.{◌≡◌, ◌≤◌, length, OnOk, IfOk};
ghost use Rattle.k_carry_pairs.specs.Carried.{AreSorted, pair_before, place_before, same_place as same_meant};
ghost use Rattle.k_carry_pairs.specs.Gathered.{IsPlaceFor, found_before, pairs_of as pairs_meant, put as put_meant, stands_at as stands_meant};

use crate::Pair;
use k_num::{NoMemory, Place, Seq};
use std::alloc::Global;

/// A pair of a loop, which is told by its region.
#[derive(Clone, Copy, Debug)]
pub struct Found {
    pub region: u32,
    pub pair: Pair,
}

/// Whether one place stands before another.
fn is_before(a: &Place, b: &Place) -> bool
    ensures { result ≡ place_before a.now b.now }
{
    a.line < b.line || (a.line == b.line && a.column < b.column)
}

/// Whether two places are one.
fn same_place(a: &Place, b: &Place) -> bool
    ensures { result ≡ same_meant a.now b.now }
{
    a.line == b.line && a.column == b.column
}

/// Whether one pair stands before another.
fn pair_precedes(a: &Pair, b: &Pair) -> bool
    ensures { result ≡ pair_before a.now b.now }
{
    is_before(&a.from, &b.from) || (same_place(&a.from, &b.from) && is_before(&a.to, &b.to))
}

/// Whether what is found stands before something else that is.
fn precedes(a: &Found, b: &Found) -> bool
    ensures { result ≡ found_before a.now b.now }
{
    a.region < b.region || (a.region == b.region && pair_precedes(&a.pair, &b.pair))
}

/// Whether there is something at this place that does not stand behind.
fn stands_at(found: &[Found], at: usize, new: &Found) -> bool
    ensures { result ≡ stands_meant found.now at new.now }
{
    match found.get(at) {
        Some(old) => !precedes(new, old),
        None => false,
    }
}

/// How many of sorted pairs stand before this one.
fn place_for(found: &[Found], new: &Found) -> usize
    requires { AreSorted found_before found.now }
    ensures bound { result ≤ length found.now }
    ensures point { IsPlaceFor new.now found.now result }
{
    let mut low = 0;
    let mut high = found.len();
    while low < high {
        let middle = low + (high - low) / 2;
        if precedes(&found[middle], new) {
            low = middle + 1;
        } else {
            high = middle;
        }
    }
    low
}

/// Puts a pair among sorted ones, unless it is there. A refusal changes nothing.
pub fn put(found: &mut Vec<Found>, new: Found) -> Result<(), NoMemory>
    requires { AreSorted found_before found.old.items }
    ensures put { OnOk result (found.new.items ≡ put_meant new found.old.items) }
    ensures sorted { AreSorted found_before found.new.items }
{
    let at = place_for(found, &new);
    if stands_at(found, at, &new) {
        return Ok(());
    }
    found.insert(at, new)?;
    Ok(())
}

/// The pairs of a region, in order.
pub fn pairs_of(alloc: Global, region: u32, found: &[Found]) -> Result<Seq<Pair>, NoMemory>
    ensures { IfOk result (λ pairs. pairs ≡ pairs_meant region found.now) }
{
    let mut pairs = Seq::new(alloc);
    let mut rest = found;
    while let Some((first, later)) = rest.split_first() {
        if first.region == region {
            pairs.push(first.pair)?;
        }
        rest = later;
    }
    Ok(pairs)
}
