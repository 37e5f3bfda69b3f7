//! How a run can end, and what a run leaves: its listing.
#![tactic(auto)]

mod ending;
mod listing;

pub use ending::{End, Trap, name, trap_of};
pub use listing::Listing;
