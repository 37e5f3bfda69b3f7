//! What a table tells.

use k_advise_verdicts::Verdict;
use k_ending::End;
use k_num::Text;
use k_selfpar::Frac;

/// What ran, and for how many threads it is planned.
#[derive(Drop)]
pub struct Ran {
    pub file: Text,
    pub end: End,
    pub ops: u64,
    /// In latencies, as the path.
    pub work: u64,
    pub path: u64,
    pub threads: u64,
}

/// How many times as fast the run would be with so many threads, each by its own plan.
#[derive(Clone, Copy)]
pub struct Gains {
    pub two: Frac,
    pub four: Frac,
    pub eight: Frac,
    pub sixteen: Frac,
}

/// A loop that matters.
#[derive(Drop)]
pub struct TableRow {
    /// The number of its region.
    pub region: u32,
    /// The region of the loop around it, if one is.
    pub around: Option<u32>,
    pub work: u64,
    pub sp: Frac,
    pub turns: u64,
    pub instances: u64,
    /// How many times as fast the run would be if this loop alone were parallel.
    pub gain: Frac,
    pub verdict: Verdict,
    /// What the variable or the array of the verdict is called; empty where it speaks of none.
    pub name: Text,
    /// The line to write before the loop; empty where there is none.
    pub pragma: Text,
}
