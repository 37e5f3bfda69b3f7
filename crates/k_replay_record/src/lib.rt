//! The record of a run: its operations as steps, each with what it does and where its operands come from; and what a step gives.
#![tactic(auto)]

mod acts;
mod record;
mod recorder;
mod values;
mod writing;

pub use acts::value;
pub use record::{Act, Datum, Operand, Piece, Record, Step};
pub use recorder::{Recorder, StepFault};
pub use writing::write;
