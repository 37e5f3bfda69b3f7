//! Macros with and without parameters, and what a use of one is replaced by (C17 6.10.3). No command uses them yet.
//!
//! A token is its spelling, with whether blanks stand before it, for what it is follows from how it is spelled. It has no place, since each token
//! that a use gives has the place of that use.
#![tactic(auto)]

mod arguments;
pub mod calls;
mod failure;
pub mod laws;
pub mod listing;
mod macros;
pub mod names;
mod pasting;
pub mod replacing;
pub mod shared;
mod texts;
mod tokens;
pub mod uses;

pub use arguments::Argument;
pub use failure::Failure;
pub use macros::{Chain, Macro, Operand};
pub use tokens::{Listed, Names, Spelled, Spelling};
