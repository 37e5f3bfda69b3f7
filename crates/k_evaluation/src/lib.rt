//! *Evaluation*: what a checked source does when it runs, as a function over its typed tree (C17 6.5, 6.8). The
//! definitions stand in specs/; here are the types that they share with the code that runs a source.
#![tactic(auto)]

mod flow;
pub mod laws;
mod operand;

pub use flow::Flow;
pub use operand::{Operand, Target};
