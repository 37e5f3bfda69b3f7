//! The file of a sum, read line by line.
ghost use Rattle.std.specs.Prelude.{◌≡◌, IfOk};
ghost use Rattle.k_dict_entries.specs.Entries.{NameEarlier};
ghost use Rattle.k_sum.specs.Sums.{HasBounds};
ghost use Rattle.k_sum_read.specs.Reading.{AreCounts, Finishes, IsListing, ReadsAll, sum_of_parts};
ghost use Rattle.k_sum_read.specs.SumFile.{ReadsSum};

use crate::head::{Counts, head};
use crate::listing::{Listing, list_lines};
use crate::roots::roots_line;
use k_dict_entries::{Dict, Run};
use k_dict_saved::{Halt, SavedFault, Stop, is_end};
use k_num::Seq;
use k_sum::Sum;
use std::alloc::Global;

/// The sum of these parts.
fn sum_from(counts: Counts, listing: Listing, roots: Seq<Run>, work: u64) -> Sum
    requires { NameEarlier listing.entries }
    ensures { result ≡ sum_of_parts counts listing roots work }
{
    let Counts { runs, exits, ops } = counts;
    let Listing {
        regions,
        entries,
        extents: _,
    } = listing;
    Sum {
        runs,
        exits,
        ops,
        work,
        regions,
        dict: Dict::from_table(entries),
        roots,
    }
}

/// The sum, where the lines of its roots and of its end stand here.
fn finish(alloc: Global, counts: Counts, listing: Listing, text: &[u8]) -> Result<Sum, Halt>
    requires counts { AreCounts counts }
    requires listing { IsListing listing }
    ensures { Finishes counts listing text.now result }
{
    match roots_line(
        alloc,
        counts.runs,
        listing.regions.as_slice(),
        listing.entries.entries(),
        listing.extents.as_slice(),
        text,
    ) {
        Err(Stop::Wrong) => {
            drop(counts);
            drop(listing);
            Err(Halt::Wrong(text.len()))
        }
        Err(Stop::Memory) => {
            drop(counts);
            drop(listing);
            Err(Halt::Memory)
        }
        Ok((roots, work, rest)) => {
            if is_end(rest) {
                Ok(sum_from(counts, listing, roots, work))
            } else {
                drop(counts);
                drop(listing);
                drop(roots);
                Err(Halt::Wrong(rest.len()))
            }
        }
    }
}

/// A whole file.
fn read_all(alloc: Global, text: &[u8]) -> Result<Sum, Halt>
    ensures { ReadsAll text.now result }
{
    match head(alloc, text) {
        Err(halt) => Err(halt),
        Ok((counts, list_text)) => match list_lines(alloc, list_text) {
            Err(halt) => {
                drop(counts);
                Err(halt)
            }
            Ok((listing, roots_text)) => finish(alloc, counts, listing, roots_text),
        },
    }
}

/// The sum that the bytes of a file spell. `NotSaved` has the byte at which the first wrong line starts.
pub fn read_sum(alloc: Global, bytes: &[u8]) -> Result<Sum, SavedFault>
    ensures sum { ReadsSum bytes.now result }
    ensures bounds { IfOk result HasBounds }
{
    match read_all(alloc, bytes) {
        Ok(sum) => Ok(sum),
        Err(Halt::Memory) => Err(SavedFault::Memory),
        Err(Halt::Wrong(left)) => Err(SavedFault::NotSaved((bytes.len() - left) as u64)),
    }
}
