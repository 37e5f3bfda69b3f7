//! What stands before the statements of a `switch`, emitted instruction by instruction: its value, its cases, and the jump to its default.
#![tactic(auto)]

mod counts;
mod selects;
mod switches;

pub use switches::{begin_switch, site_within, stays_behind};
