//! The rows and the contexts of many runs: those of their trees side by side, by the definitions that serve one tree.
#![tactic(auto)]

mod counting;
pub mod laws;
mod run_contexts;
mod run_rows;

pub use run_contexts::contexts;
pub use run_rows::rows;
