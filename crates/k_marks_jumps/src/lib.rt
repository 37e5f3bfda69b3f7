//! The jumps that lead out of the statements of a source, found in one walk.
#![tactic(auto)]

mod jumps;
mod walk;

pub use jumps::any;
pub use walk::{jumps_of, statements_of};
