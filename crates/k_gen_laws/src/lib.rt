//! Laws of the programs that are made from a number: each is a source without a fault.
#![tactic(auto)]

pub mod laws;
