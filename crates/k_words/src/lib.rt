//! The words of the command line: what they ask for, or the first of them that is wrong.
#![tactic(auto)]

mod about;
mod job;
pub mod laws;
mod merging;
mod number;
mod option;
mod settings;
mod usage;

pub use about::{Asked, asked_for, help, version};
pub use job::{Form, Job, words};
pub use merging::Part;
pub use option::{LISTED_STEPS, STANDARD_DEPTH, STANDARD_SEED, STANDARD_STEPS, STANDARD_WORKERS};
pub use usage::Usage;
