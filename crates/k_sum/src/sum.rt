//! What many runs of one program come to together.

use crate::exits::Exit;
use k_dict_entries::{Dict, DictFault, Run};
use k_num::Seq;
use k_optab::Region;

/// Why runs are not put together.
#[derive(Clone, Copy, Debug, PartialEq, Eq)]
pub enum SumFault {
    /// They are of two programs: their lists of regions differ.
    Other,
    /// There would be 2^32 runs or more, or their work would be 2^62 or more.
    Large,
    /// The dictionary of both would pass a limit, or no memory was found.
    Dict(DictFault),
}

/// The profiles of many runs of one program, put together.
#[derive(Drop)]
pub struct Sum {
    /// How many runs there were.
    pub runs: u64,
    /// How many of them ended with each exit value, by rising value.
    pub exits: Seq<Exit>,
    /// How many operations they made.
    pub ops: u64,
    /// The works of the runs together.
    pub work: u64,
    pub regions: Seq<Region>,
    /// The entries of the instances of all runs.
    pub dict: Dict,
    /// How often each entry was a run's root, by rising number of the entry.
    pub roots: Seq<Run>,
}
