//! Whether entries stand in order.
ghost use Rattle.std.specs.Prelude.{[], ◌≡◌, ◌↔◌, IsTrue};
ghost use Rattle.std.specs.Cmp.Lexicographic.{slice_cmp};
ghost use Rattle.std.specs.Ordering.{nat_cmp, ordering_then};
ghost use Rattle.k_sum_order.specs.Order.{AreInOrder, key_of, run_numbers};
ghost use Rattle.k_sum_order.specs.Placing as spec;

use crate::key::behind;
use k_dict_entries::{Entry, Run};
use std::cmp::Ordering;

/// Which of two runs comes first.
fn compare_run(one: Run, other: Run) -> Ordering
    ensures { result ≡ ordering_then (nat_cmp one.entry other.entry) (nat_cmp one.count other.count) }
{
    one.entry
        .cmp(&other.entry)
        .then(one.count.cmp(&other.count))
}

/// Whether no runs come before these.
fn compare_end(other: &[Run]) -> Ordering
    ensures { result ≡ slice_cmp nat_cmp [] (run_numbers other.now) }
{
    match other.split_first() {
        None => Ordering::Equal,
        Some(_) => Ordering::Less,
    }
}

/// Which of two lists of runs comes first.
fn compare_runs(one: &[Run], other: &[Run]) -> Ordering
    ensures { result ≡ slice_cmp nat_cmp (run_numbers one.now) (run_numbers other.now) }
{
    let mut ones = one;
    let mut others = other;
    while let Some((run, later)) = ones.split_first() {
        let Some((next, more)) = others.split_first() else {
            return Ordering::Greater;
        };
        let order = compare_run(*run, *next);
        if order.is_ne() {
            return order;
        }
        ones = later;
        others = more;
    }
    compare_end(others)
}

/// Which of two entries comes first.
pub fn compare(one: &Entry, other: &Entry) -> Ordering
    ensures { result ≡ slice_cmp nat_cmp (key_of one.now) (key_of other.now) }
{
    let runs = compare_runs(one.runs.as_slice(), other.runs.as_slice());
    let paths = one.path.cmp(&other.path).then(runs);
    let works = one.work.cmp(&other.work).then(paths);
    let regions = one.region.cmp(&other.region).then(works);
    let fewest = behind(one.runs.as_slice());
    fewest.cmp(&behind(other.runs.as_slice())).then(regions)
}

/// Whether an entry comes before the next one.
fn goes_on(entry: &Entry, later: &[Entry]) -> bool
    ensures { IsTrue result ↔ spec.GoesOn entry.now later.now }
{
    match later.split_first() {
        None => true,
        Some((next, _)) => compare(entry, next).is_lt(),
    }
}

/// Whether each entry comes before the next one.
fn are_linked(entries: &[Entry]) -> bool
    ensures { IsTrue result ↔ spec.AreLinked entries.now }
{
    let mut rest = entries;
    while let Some((entry, later)) = rest.split_first() {
        if !goes_on(entry, later) {
            return false;
        }
        rest = later;
    }
    true
}

/// Whether each entry comes before those behind it.
pub fn are_in_order(entries: &[Entry]) -> bool
    ensures { IsTrue result ↔ AreInOrder entries.now }
{
    are_linked(entries)
}
