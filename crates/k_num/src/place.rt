//! Where something stands in a source.

/// A place in a source: line and column, in bytes, each counted from 1.
#[derive(Clone, Copy, Debug, PartialEq, Eq, Hash)]
pub struct Place {
    pub line: u32,
    pub column: u32,
}
