//! What each kind of instruction does to the times of all locations, over any times that are kept: on what its operation depends, and which
//! locations hold what it gives.
#![tactic(auto)]

mod calls;
mod operands;
mod operation;
mod plain;

pub use calls::{Call, begin_return, call_times, clear_back, give_back};
pub use operation::operation_times;
