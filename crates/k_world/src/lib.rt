//! The world that a program's operations act on, and how operations are made: what evaluation and flat code share.
#![tactic(auto)]

mod act;
mod answer;
pub mod laws;
mod operands;
mod output;
mod pointers;
mod run_state;
mod source_list;
mod value;
mod works;

pub use act::{Act, ActRef, Chunk, Out};
pub use answer::{Done, Stop};
pub use run_state::RunState;
pub use source_list::sources;
pub use value::{Held, Read, Value};
