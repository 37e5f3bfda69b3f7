//! What the run of flat code comes to.

use k_dict_entries::Dict;
use k_ending::End;
use k_num::Seq;

/// What is told of the instances of a run.
#[derive(Drop)]
pub enum Summary {
    /// Main did not return, so there is no tree of closed instances.
    Missing,
    /// The dictionary of the tree is over its limits.
    Large,
    /// The dictionary of the tree, its root last.
    Whole(Dict),
}

/// A run: its end, how many operations it made, how many bytes it wrote, those of them that were not put yet, and its instances.
#[derive(Drop)]
pub struct Profile {
    pub end: End,
    pub ops: u64,
    pub written: u64,
    pub rest: Seq<u8>,
    pub summary: Summary,
}

/// Why a run was given up.
#[derive(Clone, Copy, Debug, PartialEq, Eq)]
pub enum RunFault {
    /// Output could not be put.
    Write,
    /// No memory was found.
    Memory,
}
