//! Numbering of a typed tree: its expressions and statements in text order, parents first, its strings that are
//! objects, and its loops.
#![tactic(auto)]

mod counts;
mod declaration;
mod expression;
mod statement;
mod unit;

pub use unit::number;
