//! A source with comments that tell what its functions and loops took, and an OpenMP line before each loop that may run in parallel.
#![tactic(auto)]

mod clauses;
mod conditions;
mod inserting;
mod names;
mod notes;
mod pragmas;
mod source;

pub use clauses::Clause;
pub use k_carry_pairs::{CarriedPairs, LoopPairs, Pair};
pub use notes::Note;
pub use pragmas::Pragma;
pub use source::{annotate, annotate_among};
