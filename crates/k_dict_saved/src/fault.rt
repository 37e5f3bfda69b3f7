//! Why nothing is read.

/// Why no profile is read.
#[derive(Clone, Copy, Debug, PartialEq, Eq)]
pub enum SavedFault {
    /// The bytes spell no saved profile: the first wrong line starts at this byte, counted from 0.
    NotSaved(u64),
    /// No memory was found.
    Memory,
}
