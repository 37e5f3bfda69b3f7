//! Where an instance of a region lies in a run.

/// An instance of a region that was entered and left. Its operations are those of the numbers `start..end`.
#[derive(Clone, Copy, Debug, PartialEq, Eq)]
pub struct Closed {
    /// The number of its region.
    pub region: u32,
    /// How many instances were open when it was entered.
    pub depth: u32,
    /// Which of the run's events, counted from 0, is its Enter.
    pub enter: u64,
    /// Which of the run's events is its Exit.
    pub exit: u64,
    /// How many operations were made before it was entered: the number of its first one, where it has any.
    pub start: u64,
    /// How many operations were made before it was left.
    pub end: u64,
}
