//! The judge of expressions where names are known: an operand is judged before the expression that it stands in,
//! and a call after its arguments (C17 6.5).
#![tactic(auto)]

mod arguments;
mod call;
mod expression;
mod library;
mod name;
mod named_type;

pub use expression::judge;
