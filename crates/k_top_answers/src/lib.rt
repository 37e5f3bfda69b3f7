//! What the call answers to its words, and why it does not end with status 0: the types, and the definition of the whole answer.
#![tactic(auto)]

mod answer;
mod failure;
mod faults;
mod told;
mod written;

pub use answer::{Answer, SavedFile};
pub use failure::Failure;
