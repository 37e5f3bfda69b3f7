//! How an expression is read, token by token (C17 6.5): the steps of the reading, each of which is its definition in
//! `k_parse_steps`.
#![tactic(auto)]

pub mod expression;
pub mod reading;
