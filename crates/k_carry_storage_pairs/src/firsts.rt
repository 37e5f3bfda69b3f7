//! The operations that are the first of an instance to make an access of an element. Of each element those are kept that may be the first of an instance
//! which is open.
ghost use Rattle.std.specs.Prelude.{◌≡◌, ◌≤◌, [], reverse, OnOk, None, nat_lt, if◌then◌else◌};
ghost use Rattle.k_num.specs.Top.{top};
ghost use Rattle.k_carry_storage_pairs.specs.Firsts.{AreBelow, IsNoted, added, added_if, is_one_of, is_origin, least, listed, nearer};

use k_carry_pairs::Origin;
use k_num::NoMemory;

/// The one of two operations that has the lower number, of those that are not before `start`.
fn nearer_of(start: u64, best: Option<Origin>, origin: &Origin) -> Option<Origin>
    ensures { result ≡ nearer start best origin.now }
{
    if origin.number < start {
        return best;
    }
    match best {
        Some(other) => Some(lower(other, *origin)),
        None => Some(*origin),
    }
}

/// The one of two operations that has the lower number.
fn lower(a: Origin, b: Origin) -> Origin
    ensures { result ≡ (if nat_lt b.number a.number then b else a) }
{
    if b.number < a.number { b } else { a }
}

/// The operation of the lowest number of those that are not before `start`.
fn least_from(start: u64, origins: &[Origin]) -> Option<Origin>
    ensures { result ≡ least start origins.now None }
{
    let mut best = None;
    let mut rest = origins;
    while let Some((origin, later)) = rest.split_first() {
        best = nearer_of(start, best, origin);
        rest = later;
    }
    best
}

/// The last of operations.
fn last_of(origins: &[Origin]) -> Option<Origin>
    ensures { result ≡ top (reverse origins.now) }
{
    match origins.last() {
        Some(origin) => Some(*origin),
        None => None,
    }
}

/// Whether two operations have one number and one place.
fn is_same(a: &Origin, b: &Origin) -> bool
    ensures { result ≡ is_origin a.now b.now }
{
    a.number == b.number && a.place.line == b.place.line && a.place.column == b.place.column
}

/// Whether the operation is this one, where there is one.
fn is_last(last: Option<Origin>, origin: &Origin) -> bool
    ensures { result ≡ is_one_of last origin.now }
{
    match last {
        Some(other) => is_same(&other, origin),
        None => false,
    }
}

/// Adds an operation behind others, unless it is the last of them.
fn add(firsts: &mut Vec<Origin>, origin: Origin) -> Result<(), NoMemory>
    ensures { OnOk result (firsts.new.items ≡ added origin firsts.old.items) }
{
    if is_last(last_of(firsts.as_slice()), &origin) {
        return Ok(());
    }
    firsts.push(origin)?;
    Ok(())
}

/// Adds an operation, if there is one.
fn add_if(firsts: &mut Vec<Origin>, origin: Option<Origin>) -> Result<(), NoMemory>
    ensures { OnOk result (firsts.new.items ≡ added_if origin firsts.old.items) }
{
    match origin {
        Some(origin) => add(firsts, origin),
        None => Ok(()),
    }
}

/// Lists for each of the instances that begin with these operations the first of the others that lies in it.
pub fn list_firsts(
    starts: &[u64],
    origins: &[Origin],
    firsts: &mut Vec<Origin>,
) -> Result<(), NoMemory>
    ensures { OnOk result (firsts.new.items ≡ listed starts.now origins.now []) }
{
    firsts.clear();
    let mut rest = starts;
    while let Some((start, later)) = rest.split_first() {
        add_if(firsts, least_from(*start, origins))?;
        rest = later;
    }
    Ok(())
}

/// The higher of two numbers.
fn higher(a: u64, b: u64) -> u64
    ensures one { a ≤ result }
    ensures other { b ≤ result }
{
    if a < b { b } else { a }
}

/// A number that is no lower than any of these.
fn highest(starts: &[u64]) -> u64
    ensures { AreBelow starts.now result }
{
    let mut high = 0;
    let mut rest = starts;
    while let Some((start, later)) = rest.split_first() {
        high = higher(high, *start);
        rest = later;
    }
    high
}

/// An operation made an access: it is kept beside those that are the first to make it in one of the instances that begin with these operations, unless one
/// of those lies in all of them. `firsts` is a list that is kept for them.
pub fn note(
    origins: &mut Vec<Origin>,
    starts: &[u64],
    origin: Origin,
    firsts: &mut Vec<Origin>,
) -> Result<(), NoMemory>
    ensures { OnOk result (IsNoted starts.now origin origins.old.items origins.new.items) }
{
    if least_from(highest(starts), origins.as_slice()).is_some() {
        return Ok(());
    }
    list_firsts(starts, origins.as_slice(), firsts)?;
    firsts.push(origin)?;
    origins.clear();
    origins.extend_from_slice(firsts.as_slice())?;
    Ok(())
}
