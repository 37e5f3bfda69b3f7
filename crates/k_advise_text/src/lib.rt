//! The table of a plan for threads, for a person at a terminal: what ran, where to begin and what it brings, each loop that matters with its verdict, and what
//! stands in the way, with the lines of the source. No command uses it yet.
#![tactic(auto)]

mod numbers;
mod reasons;
mod row;
mod sources;
mod table;
mod words;

pub use row::{Gains, Ran, TableRow};
pub use table::table_text;
