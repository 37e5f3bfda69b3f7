//! What the regions of a source are to a saved profile: they can be saved.
#![tactic(auto)]

pub mod laws;
