//! Calls that a source has in its text: all of a tree of syntax in text order, also those in operands of `sizeof`, which the typed tree has not (C17
//! 6.9p5); and whether a typed source calls the library's `getchar` (7.21.7.6).
#![tactic(auto)]

mod declaration;
mod expression;
mod getchar;
mod source;
mod statement;

pub use getchar::calls_getchar;
pub use source::{Call, calls_of};
