//! How numbers, places, regions and runs are written: each is put at the end of a text.
#![tactic(auto)]

mod numbers;
mod regions;
mod runs;

pub use numbers::{push, push_head, push_line, push_named, push_number, push_place};
pub use regions::{push_name, push_region};
pub use runs::push_runs;
