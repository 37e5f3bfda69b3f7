//! Lowering: a typed program to its flat code.
#![tactic(auto)]

mod function;
mod functions;
mod program;
mod source;

pub use program::lower;
