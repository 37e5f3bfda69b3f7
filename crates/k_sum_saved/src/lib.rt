//! The files of sums of saved profiles: which lines they have, where the first wrong one stands, and which sums can be saved.
#![tactic(auto)]

pub mod laws;
mod roots;

pub use roots::{are_of_one_region, are_of_region};
