//! The loops of a source, as Wide sees them, found in text order.
#![tactic(auto)]

mod found;

pub use found::{LoopText, find_stmts};
