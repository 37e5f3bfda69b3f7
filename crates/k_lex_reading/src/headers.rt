//! Headers, whose macros are defined where they are included (C17 6.10.2).

/// What comes of an inclusion.
#[derive(Clone, Copy)]
pub enum Inclusion {
    Done,
    /// Another macro of a name is known.
    Another,
    /// There is no such header.
    Unknown,
}
