//! Laws of the runs of valid code that the machine's times rest on: each value came from an operation that was made, and all counts are
//! bounded.
#![tactic(auto)]

pub mod laws;
