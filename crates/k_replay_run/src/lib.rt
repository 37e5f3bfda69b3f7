//! The record of a program's run, and its replay: the operations of the run, fired by workers in rounds.
#![tactic(auto)]

mod record;
mod replay;

pub use record::record_run;
pub use replay::{Replay, replay_run};
