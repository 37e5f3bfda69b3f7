//! What the summaries that a machine keeps mean, step by step: the laws. Their statements stand in specs/.
#![tactic(auto)]

pub mod laws;
