//! Laws of marks in Wide: what they have of those that *Marks* gives.
#![tactic(auto)]

pub mod laws;
