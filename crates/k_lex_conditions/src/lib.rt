//! The conditions of `#if` and `#elif` (C17 6.10.1): whether the tokens of one, in which macros were replaced, make a condition, and
//! whether it holds. No command uses them yet.
//!
//! A condition is read from left to right, with what is open on a stack of its own, so that no depth of parentheses is too deep. Nothing is
//! skipped: an operation that has no value gives none to what it stands in, but where C17 doesn't evaluate it.
#![tactic(auto)]

mod finding;
pub mod laws;
mod operations;
mod operators;
mod reading;
mod value;

pub use finding::{Names, without_defined};
pub use reading::condition;
pub use value::{Known, Value};
