//! The formats of saved files.

/// The format of a saved file, which its first line tells.
#[derive(Clone, Copy, Debug, PartialEq, Eq)]
pub enum Format {
    /// An entry has the maximal runs of its children, in their order.
    One,
    /// An entry has one run for each entry among its children.
    Two,
}

/// The formats of the files that are read.
#[derive(Clone, Copy, Debug, PartialEq, Eq)]
pub enum Accepts {
    /// Those in format 1.
    OneAlone,
    /// Those in format 1 and in format 2.
    Both,
}
