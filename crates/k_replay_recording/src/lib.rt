//! Operations as they are recorded: the step of a record that an operation comes to.
#![tactic(auto)]

mod acts;
pub mod laws;
mod making;
mod operands;

pub use making::step;
