//! How workers fired a run, as text: behind the program's output how many operations there are, in how many rounds they were fired, what each worker did,
//! and what main returned.
#![tactic(auto)]

mod lines;

pub use lines::{replay_text, with_report};
