//! Laws of the storage pairs of accepted programs: what is told of their flat code is so by what the operations of their runs do, each of which is told of.
#![tactic(auto)]

pub mod laws;
