//! Sums of saved profiles, read from their files line by line. A file is refused at its first wrong line.
#![tactic(auto)]

mod any;
mod exit_lines;
mod head;
pub mod laws;
mod listing;
mod reading;
mod roots;

pub use any::read_any;
pub use reading::read_sum;
