//! Lines by their structure.
ghost use Rattle.std.specs.Prelude.{◌≡◌, ◌<◌, ◌≤◌, Some, IfSome};
ghost use Rattle.k_scan.specs.Pieces.{Finds};
ghost use Rattle.k_dict_saved.specs.Syntax.{Gives, entry_at, kind_at, named_at, number_then, numbers_at, part_at, place_at, region_at, region_of, run_at, runs_at};

use crate::reading::stop::Stop;
use k_dict_entries::{Entry, Run};
use k_num::{NoMemory, Place, Seq, Text};
use k_optab::{Region, RegionKind};
use k_scan::{name, number, word};
use std::alloc::Global;

/// The greatest number of runs of an entry.
pub(crate) const MOST_RUNS: usize = 1_048_576;

/// A number and a byte behind it.
#[tactic(auto, unfolding(crate::specs::Syntax::number_then))]
fn number_then(byte: u8, text: &[u8]) -> Option<(u64, &[u8])>
    ensures { Finds (λ found. (found.0, found.1.now)) result (number_then byte text.now) }
{
    let (value, rest) = number(text)?;
    let rest = word(&[byte], rest)?;
    Some((value, rest))
}

/// The line of a name and a number within these limits.
#[tactic(auto, unfolding(crate::specs::Syntax::named_at))]
pub fn named<'a>(name: &[u8], low: u64, high: u64, text: &'a [u8]) -> Option<(u64, &'a [u8])>
    ensures value { Finds (λ found. (found.0, found.1.now)) result (named_at name.now low high text.now) }
    ensures most { IfSome result (λ found. found.0 ≤ high) }
{
    let rest = word(name, text)?;
    let (value, rest) = number_then(b'\n', rest)?;
    if low <= value && value <= high {
        Some((value, rest))
    } else {
        None
    }
}

/// A kind of region.
#[tactic(auto, unfolding(crate::specs::Syntax::kind_at))]
fn kind(text: &[u8]) -> Option<(RegionKind, &[u8])>
    ensures { Finds (λ found. (found.0, found.1.now)) result (kind_at text.now) }
{
    if let Some(rest) = word(b"func ", text) {
        return Some((RegionKind::Func, rest));
    }
    if let Some(rest) = word(b"loop ", text) {
        return Some((RegionKind::Loop, rest));
    }
    let rest = word(b"body ", text)?;
    Some((RegionKind::Body, rest))
}

/// A line or a column, and a byte behind it.
#[tactic(auto, unfolding(crate::specs::Syntax::part_at))]
fn part(byte: u8, text: &[u8]) -> Option<(u32, &[u8])>
    ensures { Finds (λ found. (found.0, found.1.now)) result (part_at byte text.now) }
{
    let (value, rest) = number_then(byte, text)?;
    if 1 <= value && value <= 1_048_577 {
        Some((value as u32, rest))
    } else {
        None
    }
}

/// A place at the end of a line.
#[tactic(auto, unfolding(crate::specs::Syntax::place_at))]
fn place(text: &[u8]) -> Option<(Place, &[u8])>
    ensures { Finds (λ found. (found.0, found.1.now)) result (place_at text.now) }
{
    let (line, rest) = part(b':', text)?;
    let (column, rest) = part(b'\n', rest)?;
    Some((Place { line, column }, rest))
}

/// The kind, the function and the place of a region.
#[tactic(auto, unfolding(crate::specs::Syntax::region_at))]
fn region_parts(text: &[u8]) -> Option<(RegionKind, &str, Place, &[u8])>
    ensures { Finds (λ found. (region_of found.0 found.1.now found.2, found.3.now)) result (region_at text.now) }
{
    let (kind, rest) = kind(text)?;
    let (func, rest) = name(rest)?;
    let rest = word(b" ", rest)?;
    let (place, rest) = place(rest)?;
    Some((kind, func, place, rest))
}

/// The line of a region.
pub(crate) fn region(alloc: Global, text: &[u8]) -> Result<(Region, &[u8]), Stop>
    ensures { Gives (λ found. (found.0, found.1.now)) result (region_at text.now) }
{
    let Some((kind, func, place, rest)) = region_parts(text) else {
        return Err(Stop::Wrong);
    };
    match Text::copy_of(alloc, func) {
        Ok(func) => Ok((Region { kind, func, place }, rest)),
        Err(NoMemory) => Err(Stop::Memory),
    }
}

/// A run of entries below a number.
#[tactic(auto, unfolding(crate::specs::Syntax::run_at))]
fn run(high: u32, text: &[u8]) -> Option<(Run, &[u8])>
    ensures { Finds (λ found. (found.0, found.1.now)) result (run_at high text.now) }
{
    let rest = word(b" ", text)?;
    let (entry, rest) = number_then(b'*', rest)?;
    let (count, rest) = number(rest)?;
    if entry < u64::from(high) && 1 <= count {
        let entry = entry as u32;
        Some((Run { entry, count }, rest))
    } else {
        None
    }
}

/// The runs at the end of a line.
pub fn runs(alloc: Global, high: u32, text: &[u8]) -> Result<(Seq<Run>, &[u8]), Stop>
    ensures { Gives (λ found. (found.0, found.1.now)) result (runs_at high 1048576 text.now) }
{
    let mut runs = Seq::new(alloc);
    let mut rest = text;
    for _ in 0..MOST_RUNS {
        if let Some(behind) = word(b"\n", rest) {
            return Ok((runs, behind));
        }
        let Some((next, behind)) = run(high, rest) else {
            return Err(Stop::Wrong);
        };
        if let Err(NoMemory) = runs.push(next) {
            return Err(Stop::Memory);
        }
        rest = behind;
    }
    match word(b"\n", rest) {
        Some(behind) => Ok((runs, behind)),
        None => Err(Stop::Wrong),
    }
}

/// The numbers of an entry.
#[tactic(auto, unfolding(crate::specs::Syntax::numbers_at))]
fn numbers(regions: u32, text: &[u8]) -> Option<((u32, u64, u64), &[u8])>
    ensures { Finds (λ found. (found.0, found.1.now)) result (numbers_at regions text.now) }
{
    let (region, rest) = number_then(b' ', text)?;
    let (work, rest) = number_then(b' ', rest)?;
    let (path, rest) = number(rest)?;
    if region < u64::from(regions) {
        Some(((region as u32, work, path), rest))
    } else {
        None
    }
}

/// The line of an entry, where there are so many regions, and so many entries before it.
#[tactic(auto, unfolding(crate::specs::Syntax::entry_at))]
pub(crate) fn entry(
    alloc: Global,
    regions: u32,
    high: u32,
    text: &[u8],
) -> Result<(Entry, &[u8]), Stop>
    ensures { Gives (λ found. (found.0, found.1.now)) result (entry_at regions high text.now) }
{
    let Some(((region, work, path), rest)) = numbers(regions, text) else {
        return Err(Stop::Wrong);
    };
    match runs(alloc, high, rest) {
        Ok((runs, rest)) => Ok((
            Entry {
                region,
                work,
                path,
                runs,
            },
            rest,
        )),
        Err(stop) => Err(stop),
    }
}
