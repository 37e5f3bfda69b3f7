//! The storage pairs of a loop.

use k_ending::End;
use k_num::{Place, Seq};

/// How a later turn shares an element that it stores to.
#[derive(Clone, Copy, Debug, PartialEq, Eq)]
pub enum Sharing {
    /// An earlier turn loaded it.
    Anti,
    /// An earlier turn stored to it.
    Output,
}

/// An element that turns of a loop share: where the construct stands that loads it or stores to it first, and where that stands which stores to it later.
#[derive(Clone, Copy, Debug, PartialEq, Eq)]
pub struct Shared {
    pub kind: Sharing,
    pub from: Place,
    pub to: Place,
}

/// The storage pairs of a loop, sorted.
#[derive(Drop)]
pub struct LoopStorage {
    /// The number of its region.
    pub region: u32,
    pub pairs: Seq<Shared>,
}

/// What the turns of the loops of a run share, in order of region, and how the run ended.
#[derive(Drop)]
pub struct StoragePairs {
    pub end: End,
    pub loops: Seq<LoopStorage>,
}
