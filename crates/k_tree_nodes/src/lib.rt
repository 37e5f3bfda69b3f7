//! The node counts of trees of syntax.
#![tactic(auto)]

mod declaration;
mod expression;
mod statement;
mod unit;

pub use unit::{item_nodes, nodes};
