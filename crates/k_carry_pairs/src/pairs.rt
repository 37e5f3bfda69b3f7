//! The pairs of a loop.

use k_ending::End;
use k_num::{Place, Seq};

/// A dependence that a loop carries: where the construct stands whose operation gave the value, and where that stands which used it.
#[derive(Clone, Copy, Debug, PartialEq, Eq)]
pub struct Pair {
    pub from: Place,
    pub to: Place,
}

/// The pairs of a loop, sorted.
#[derive(Drop)]
pub struct LoopPairs {
    /// The number of its region.
    pub region: u32,
    pub pairs: Seq<Pair>,
}

/// What the loops of a run carry, in order of region, and how the run ended.
#[derive(Drop)]
pub struct CarriedPairs {
    pub end: End,
    pub loops: Seq<LoopPairs>,
}
