//! How declarations and parameters are read, token by token (C17 6.7): the steps of the reading, each of which is its
//! definition in `k_parse_steps`.
#![tactic(auto)]

pub mod declaration;
pub mod parameter;
