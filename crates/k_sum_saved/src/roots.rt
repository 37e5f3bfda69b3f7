//! The regions of roots.
ghost use Rattle.std.specs.Prelude.{◌↔◌, IsTrue, length};
ghost use Rattle.k_dict_entries.specs.Entries.{NameBelow};
ghost use Rattle.k_sum_saved.specs.SumLines.{AreOfOneRegion, AreOfRegion};

use k_dict_entries::{Entry, Run};

/// Whether roots are of a region.
pub fn are_of_region(region: u32, entries: &[Entry], roots: &[Run]) -> bool
    requires { NameBelow (length entries.now) roots.now }
    ensures { IsTrue result ↔ AreOfRegion region entries.now roots.now }
{
    let mut rest = roots;
    while let Some((root, later)) = rest.split_first() {
        if entries[root.entry as usize].region != region {
            return false;
        }
        rest = later;
    }
    true
}

/// Whether all roots are of one region.
pub fn are_of_one_region(entries: &[Entry], roots: &[Run]) -> bool
    requires { NameBelow (length entries.now) roots.now }
    ensures { IsTrue result ↔ AreOfOneRegion entries.now roots.now }
{
    match roots.split_first() {
        None => true,
        Some((first, _)) => {
            let region = entries[first.entry as usize].region;
            are_of_region(region, entries, roots)
        }
    }
}
