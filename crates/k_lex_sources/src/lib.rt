//! The lines of a source, cut into pieces (C17 5.1.1.2p1, phases 1 to 3): lines that end in a backslash are joined to
//! the next, comments stand for blanks, and what is wrong with a token stands beside it, for it is asked where the token
//! is read. No command uses them yet.
#![tactic(auto)]

pub mod laws;
mod rows;
mod splicing;
mod tokens;

pub use rows::{Cut, Row, cut_rows};
