//! What the instances of one region come to together.

use crate::Frac;

/// What the instances of one region come to together.
#[derive(Clone, Copy, Debug, PartialEq, Eq)]
pub struct Row {
    /// The number of the region.
    pub region: u32,
    /// How many instances there are.
    pub instances: u64,
    /// Their works together.
    pub work: u64,
    /// Their critical paths together.
    pub path: u64,
    /// Their self-parallelism: the time that they would take with their children one behind the other, as a multiple of their paths.
    pub sp: Frac,
}
