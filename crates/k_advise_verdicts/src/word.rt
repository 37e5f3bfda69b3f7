//! What is told of a loop in one word, with its reason.

use crate::facts::{Failing, Named};
use k_carry_pairs::Pair;
use k_carry_storage_pairs::Shared;
use k_num::Place;
use k_selfpar::Frac;

/// The first three of pairs that a loop carries, or the one or two that it has.
#[derive(Clone, Copy, PartialEq, Eq)]
pub struct FirstPairs {
    pub first: Pair,
    pub second: Option<Pair>,
    pub third: Option<Pair>,
}

/// The first three of the storage pairs of a loop, or the one or two that it has.
#[derive(Clone, Copy, PartialEq, Eq)]
pub struct FirstShared {
    pub first: Shared,
    pub second: Option<Shared>,
    pub third: Option<Shared>,
}

/// What the turns of a loop would share.
#[derive(Clone, Copy, PartialEq, Eq)]
pub struct InCommon {
    /// Its first storage pairs, if it has one.
    pub pairs: Option<FirstShared>,
    /// The array of which each thread could be given its own.
    pub own: Option<Named>,
    /// The first register variable that is not private, if there is one.
    pub variable: Option<u32>,
}

/// What to do with a loop, or what stands in the way.
#[derive(Clone, Copy, PartialEq, Eq)]
pub enum Verdict {
    /// It is to be made parallel; the turns may be uneven.
    Parallel { uneven: bool },
    /// A pick is above it in each of its contexts, first this region's.
    Inside { pick: u32 },
    /// It carries dependences from turn to turn.
    Chain(FirstPairs),
    /// Its turns would share what is not handed on.
    Shared(InCommon),
    /// It is not counted.
    Uncounted(Failing),
    /// A `break` or `return` leaves it.
    Leaves(Place),
    /// It saves nothing: what a turn costs, in tenths, and what a start costs.
    Small { turn: u128, start: u64 },
    /// None of these: its self-parallelism.
    Serial(Frac),
}

/// The verdict on a loop, by its region.
#[derive(Clone, Copy)]
pub struct LoopVerdict {
    pub region: u32,
    pub verdict: Verdict,
}
