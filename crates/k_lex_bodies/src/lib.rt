//! The parameters and the body of a macro (C17 6.10.3), read from the pieces of a line. No command uses them yet.
#![tactic(auto)]

mod bodies;
mod forms;
pub mod laws;

pub use bodies::{Setting, body_of, parameter_list};
pub use forms::{cut_short, is_name, is_plain_name, is_spelled, unformed};
