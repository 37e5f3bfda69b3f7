//! The dependences that each loop of a run carries from turn to turn, gathered event by event.
#![tactic(auto)]

mod found;
mod gathering;
pub mod laws;
mod levels;
mod origin;
mod pairs;

pub use found::Found;
pub use gathering::Gathering;
pub use levels::Level;
pub use origin::Origin;
pub use pairs::{CarriedPairs, LoopPairs, Pair};
