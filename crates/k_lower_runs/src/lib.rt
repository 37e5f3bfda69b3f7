//! The runs of lowered code: what the code of each construct does is what *Evaluation* says.
#![tactic(auto)]

pub mod laws;
