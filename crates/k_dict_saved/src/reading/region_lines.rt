//! The lines of the regions.
ghost use Rattle.std.specs.Prelude.{IsTrue, true, ◌↔◌, ◌≡◌, ◌≢◌, ◌≤◌};
ghost use Rattle.k_dict_saved.specs.Lines.{IsClosed, MayStand, StandsBehind, last_of};
ghost use Rattle.k_dict_saved.specs.declared.format.Format.{Format as FormatValue};
ghost use Rattle.k_dict_saved.specs.Reading.{AllRegions, NextRegion, seen};
ghost use Rattle.k_optab.specs.declared.region.RegionKind.TheVariants.{Loop};

use crate::reading::lines::region;
use crate::reading::stop::{Halt, Stop};
use k_num::{NoMemory, Seq};
use k_optab::{Region, RegionKind};
use std::alloc::Global;

/// Whether a region may stand behind this one.
fn stands_behind(last: &Region, region: &Region) -> bool
    ensures { IsTrue result ↔ StandsBehind last.now.kind last.now.func region.now }
{
    match last.kind {
        RegionKind::Loop => region.kind == RegionKind::Body && region.func == last.func,
        RegionKind::Func | RegionKind::Body => region.kind != RegionKind::Body,
    }
}

/// Whether a region may stand behind these.
fn may_stand(before: &[Region], region: &Region) -> bool
    ensures { IsTrue result ↔ MayStand (last_of before.now) region.now }
{
    match before.split_last() {
        None => region.kind != RegionKind::Body,
        Some((last, _)) => stands_behind(last, region),
    }
}

/// Whether no body is missing behind this one.
fn is_no_loop(last: &Region) -> bool
    ensures { IsTrue result ↔ (last.now.kind ≢ Loop) }
{
    last.kind != RegionKind::Loop
}

/// Whether no body is missing behind these.
pub(crate) fn are_closed(regions: &[Region]) -> bool
    ensures { IsTrue result ↔ IsClosed (last_of regions.now) }
{
    match regions.split_last() {
        None => true,
        Some((last, _)) => is_no_loop(last),
    }
}

/// The line of a region that may stand behind these.
pub fn next_region<'a>(
    alloc: Global,
    before: &[Region],
    text: &'a [u8],
) -> Result<(Region, &'a [u8]), Stop>
    ensures { NextRegion before.now text.now (seen (λ found. (found.0, found.1.now)) result) }
{
    match region(alloc, text) {
        Err(stop) => Err(stop),
        Ok((region, rest)) => {
            if may_stand(before, &region) {
                Ok((region, rest))
            } else {
                drop(region);
                Err(Stop::Wrong)
            }
        }
    }
}

/// The lines of so many regions.
pub(crate) fn regions(alloc: Global, count: u32, text: &[u8]) -> Result<(Seq<Region>, &[u8]), Halt>
    ensures { (format : FormatValue) → AllRegions format count text.now (seen (λ found. (found.0, found.1.now)) result) }
{
    let mut regions: Seq<Region> = Seq::new(alloc);
    let mut rest = text;
    'lines: while regions.len() < count as usize {
        match next_region(alloc, regions.as_slice(), rest) {
            Err(Stop::Wrong) => return Err(Halt::Wrong(rest.len())),
            Err(Stop::Memory) => return Err(Halt::Memory),
            Ok((region, behind)) => {
                if let Err(NoMemory) = regions.push(region) {
                    return Err(Halt::Memory);
                }
                rest = behind;
            }
        }
    }
    Ok((regions, rest))
}
