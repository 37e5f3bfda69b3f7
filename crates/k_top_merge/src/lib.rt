//! The answer of the command merge.
#![tactic(auto)]

mod adding;
mod merged;
mod refusing;

pub use merged::merge_answer;
