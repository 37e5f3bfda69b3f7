//! The reading of a source by its lines (C17 6.10), as a relation: directives, groups, and text in which macros are
//! replaced, with its laws. No command uses it yet.
#![tactic(auto)]

pub mod laws;
mod lines;
mod rules;
mod state;

pub use lines::{Branch, Directive, Fault, Line, Placed, Test, Wrong};
pub use rules::{Count, Header, Limits, Rules, Sizes};
pub use state::State;
