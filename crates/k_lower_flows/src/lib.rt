//! The runs of lowered statements: what the code of each does is what *Evaluation* says of it.
#![tactic(auto)]

pub mod laws;
