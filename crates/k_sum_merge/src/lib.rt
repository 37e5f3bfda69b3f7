//! Sums that are put together of files, in the order of their own file, and saved where they are within the limits of one.
#![tactic(auto)]

mod finishing;
pub mod laws;
mod merging;
mod sizes;

pub use finishing::finish;
pub use merging::merge;
