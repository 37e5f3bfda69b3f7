//! Trees of syntax written back as tokens.
#![tactic(auto)]

mod declaration;
mod expression;
mod parameter;
mod printer;
mod statement;
mod unit;

pub use unit::spell;
