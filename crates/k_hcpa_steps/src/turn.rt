//! What one instruction comes to.

use k_ending::End;

/// One instruction was done, or ended the run.
#[derive(Clone, Copy, Debug, PartialEq, Eq)]
pub enum Turn {
    /// The run goes on.
    Went,
    /// The run goes on behind an operation that wrote output.
    Wrote,
    /// The run is over.
    Ended(End),
}
