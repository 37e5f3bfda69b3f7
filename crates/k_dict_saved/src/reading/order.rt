//! The order of the entries of a file in format 1.
ghost use Rattle.std.specs.Prelude.{◌≡◌, ◌<◌, ◌≤◌, ◌↔◌, IsTrue, Some, length, slice_get};
ghost use Rattle.k_dict_entries.specs.declared.entry.Entry.{Entry as EntryValue};
ghost use Rattle.k_dict_entries.specs.Entries.{AreDistinct};
ghost use Rattle.k_dict_saved.specs.Formats.{HaveRuns, IsPostOrder};
ghost use Rattle.k_dict_saved.specs.Order.{Visits};
ghost use Rattle.k_dict_saved.specs.declared.format.Format.TheVariants.{One};

use k_dict_entries::{Entry, Run};

/// The runs of the entry of a number.
fn runs_of(entries: &[Entry], number: u32) -> &[Run]
    requires { number < length entries.now }
    ensures { (e : EntryValue) → slice_get entries.now number ≡ Some e → result.now ≡ e.runs }
{
    entries[number as usize].runs.as_slice()
}

/// How many entries have occurred once the instances of this one are visited in post-order, where so many had before. There is
/// no answer where another entry than the next one would occur for the first time. It calls itself once for each level of the
/// tree, of which there are at most 32.
fn visit(entries: &[Entry], number: u32, before: u32) -> Option<u32>
    requires runs { HaveRuns One entries.now }
    requires distinct { AreDistinct entries.now }
    requires number { number < length entries.now }
    requires before { before ≤ length entries.now }
    ensures { Visits entries.now number before result }
{
    if number < before {
        return Some(before);
    }
    let mut count = before;
    let mut rest = runs_of(entries, number);
    while let Some((run, later)) = rest.split_first() {
        match visit(entries, run.entry, count) {
            Some(next) => count = next,
            None => return None,
        }
        rest = later;
    }
    if count == number {
        Some(number + 1)
    } else {
        None
    }
}

/// Whether the entries are those of the last one's instances in post-order, each where it first occurs.
pub(crate) fn are_in_post_order(entries: &[Entry]) -> bool
    requires runs { HaveRuns One entries.now }
    requires distinct { AreDistinct entries.now }
    ensures { IsTrue result ↔ IsPostOrder entries.now }
{
    match entries.split_last() {
        None => false,
        Some((_, before)) => visit(entries, before.len() as u32, 0).is_some(),
    }
}
