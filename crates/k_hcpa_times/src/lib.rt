//! The times of all locations at each live level, over a shadow of registers and one of elements.
#![tactic(auto)]

mod at_once;
mod each;
mod lane_times;
mod laned;
mod location_times;
mod timed;

pub use laned::{From, Laned, Lanes, copied};
pub use location_times::LocationTimes;
pub use timed::Timed;
