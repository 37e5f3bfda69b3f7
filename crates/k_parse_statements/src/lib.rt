//! How statements and sources are read, token by token (C17 6.8, 6.9): the steps of the reading, each of which is its
//! definition in `k_parse_steps`.
#![tactic(auto)]

pub mod source;
mod statement;
