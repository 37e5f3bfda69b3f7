//! What is listed of an instance.

use k_num::Seq;

/// A closed instance, with its interval of operations, its work and the weight of its heaviest path.
#[derive(Clone, Copy, Debug, PartialEq, Eq, Hash)]
pub struct Instance {
    /// The number of its region.
    pub region: u32,
    /// How many instances were open when it was entered.
    pub depth: u32,
    /// The number of its first operation.
    pub start: u64,
    /// The number behind its last operation.
    pub end: u64,
    /// The latencies of its operations together.
    pub work: u64,
    /// The weight of the heaviest path of its operations.
    pub path: u64,
    /// The place in the list of the nearest closed instance that encloses it.
    pub parent: Option<u64>,
}

/// Closed instances in order of entry.
pub type Tree = Seq<Instance>;
