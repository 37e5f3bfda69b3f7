//! The lines of a source, by what they are (C17 6.10): text, or a directive with its form, and what is wrong in them. No
//! command uses them yet.
#![tactic(auto)]

mod directives;
pub mod laws;
mod lines;
mod tokens;
mod words;

pub use lines::lines_of;
