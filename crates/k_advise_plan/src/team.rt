//! For whom a plan is made.

/// The threads that share the turns of a loop, and what it takes to begin a loop with them.
#[derive(Clone, Copy, Debug, PartialEq, Eq)]
pub struct Team {
    /// How many threads there are.
    pub threads: u64,
    /// What each instance of a loop takes before the threads are at work, in the units of work.
    pub start: u64,
}
