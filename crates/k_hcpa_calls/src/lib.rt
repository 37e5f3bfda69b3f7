//! The times that a machine keeps are weights of heaviest paths: what calls and returns do to them, and the start of a run.
#![tactic(auto)]

pub mod laws;
