//! Laws of the world that lowering is proved over: what an act sees, what an operation leaves as it was, and which objects are kept where
//! others die.
#![tactic(auto)]

pub mod laws;
