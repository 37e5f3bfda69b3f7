//! What stands in the text of a function, so far as loops depend on it: where its variables occur, which statements set a variable for what
//! stands behind them, and its loops. Stretches of a text are told by the numbers of nodes, which are in text order.
#![tactic(auto)]

mod actions;
mod canonical;
mod counters;
mod declared;
mod expressions;
mod lasts;
mod occurrence;
mod setting;
mod statements;
mod text;

pub use occurrence::{How, LoopText, Occurrence, Setter};
pub use text::{Text, text_of};
