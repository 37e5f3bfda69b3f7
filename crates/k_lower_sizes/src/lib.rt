//! How many registers, instructions and objects of a call lowered functions have, and how many functions and objects a source has: few for its
//! nodes. The statements of the laws stand in specs/.
#![tactic(auto)]

pub mod laws;
