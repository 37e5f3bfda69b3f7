//! The listing of a run: its events, what it writes, and how it ends, from a walk over the values of its flat code.
#![tactic(auto)]

mod advance;
mod kind;
pub mod laws;
mod log;
mod program;
mod running;
mod setting;

pub use k_ending::{End, Listing, Trap};
pub use program::plain;
pub use running::listing_of_code;
