//! A plan, as it is given.

use k_num::Seq;

/// A loop of a plan.
#[derive(Clone, Copy, Debug, PartialEq, Eq)]
pub struct Pick {
    /// The number of its context.
    pub context: u32,
    /// Whether its turns look independent.
    pub doall: bool,
    /// What it saves, in the units of work.
    pub saves: u64,
}

/// A plan: its loops in order of context, and what they save together.
#[derive(Debug, PartialEq, Eq, Drop)]
pub struct Advice {
    pub picks: Seq<Pick>,
    pub total: u64,
}
