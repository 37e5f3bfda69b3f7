//! The record of a run of flat code: one pass over the values of the run, of which each operation becomes a step.
#![tactic(auto)]

mod advance;
mod kind;
pub mod laws;
mod program;
mod running;
mod tape;

pub use running::record_code;
