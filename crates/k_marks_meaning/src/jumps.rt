//! The jumps of a statement that lead out of it (C17 6.8.6).

/// Whether a statement's text holds a `break`, a `continue` or a `return` whose target lies outside it.
#[derive(Clone, Copy, Debug, PartialEq, Eq)]
pub struct Jumps {
    pub breaks: bool,
    pub continues: bool,
    pub returns: bool,
}

/// The jumps of the statement of a number: those that lead out of its parts, and those that lead out of itself.
#[derive(Clone, Copy, Debug, PartialEq, Eq)]
pub struct StatementJumps {
    pub number: u32,
    pub parts: Jumps,
    pub itself: Jumps,
}
