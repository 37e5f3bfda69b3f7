//! Lowered code as a text: its sizes, its balance and its ranges, so that the flat code of a program is valid.
#![tactic(auto)]

pub mod laws;
