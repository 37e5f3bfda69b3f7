//! Laws of annotated sources: what annotating keeps of a source.
#![tactic(auto)]

pub mod laws;
