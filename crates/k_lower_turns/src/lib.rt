//! What stands around the body of a loop, emitted instruction by instruction: a turn is the body, the step and the test, which is the one
//! jump backward.
#![tactic(auto)]

mod around;
mod choices;
mod numbers;
mod parts;
mod turns;

pub use around::{enter, leave};
pub use numbers::Numbers;
pub use turns::{Turns, turns_of};
