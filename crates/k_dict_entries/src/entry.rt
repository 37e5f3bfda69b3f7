//! The entries of a dictionary.

use k_num::Seq;

/// Children of one shape.
#[derive(Clone, Copy, Debug, PartialEq, Eq, Hash)]
pub struct Run {
    /// The number of the entry that they have in the dictionary.
    pub entry: u32,
    /// How many there are.
    pub count: u64,
}

/// What all instances of one shape have in common.
#[derive(Debug, PartialEq, Eq, Hash, Drop)]
pub struct Entry {
    /// The number of their region.
    pub region: u32,
    /// The latencies of the operations of one instance together.
    pub work: u64,
    /// The weight of the heaviest path of one instance.
    pub path: u64,
    /// The children of one instance.
    pub runs: Seq<Run>,
}
