//! Whole statements emitted, instruction by instruction: a walk over their tree, which emits what stands around their parts.
#![tactic(auto)]

mod parts;
mod statement;

pub use statement::statements;
