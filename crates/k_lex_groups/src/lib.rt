//! Groups of lines (C17 6.10.1p6): which lines of a source are read between `#if`, `#elif`, `#else` and `#endif`, whether a condition is looked at,
//! and where one of these directives can't stand. No command uses them yet.
#![tactic(auto)]

mod groups;
pub mod laws;

pub use groups::{Group, another, asks, closed, innermost, is_read, opened, otherwise};
