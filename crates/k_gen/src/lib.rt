//! Programs that are made from a number.
#![tactic(auto)]

mod draw;
mod text;

pub use text::generate;
