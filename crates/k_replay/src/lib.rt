//! The operations of a run, fired by workers in any order: each operation is given to one worker, once its sources are fired, and what
//! all of them give is what the run gave.
#![tactic(auto)]

mod answer;
pub mod laws;
mod ready_set;
mod renewal;
mod replay;
mod rounds;
mod sources;
mod state;
mod users;

pub use answer::{Deal, FireFault};
pub use k_replay_record::{Act, Datum, Operand, Piece, Record, Recorder, Step, StepFault};
pub use replay::Core;
pub use rounds::{Schedule, Tally, run_rounds};
