//! Macros: found by number and by name, and written out, and the macros of the headers.
#![tactic(auto)]

pub mod copies;
pub mod headers;
pub mod macros;
mod plans;
