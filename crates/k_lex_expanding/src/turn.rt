//! What comes of a step of an expansion.

use k_lex_expansion::Failure;

/// What comes of a step.
#[derive(Clone, Copy, Debug, PartialEq, Eq)]
pub enum Turn {
    /// The expansion goes on.
    Goes,
    /// All is expanded.
    Over,
    /// The expansion fails.
    Fails(Failure),
}
