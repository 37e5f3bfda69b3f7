//! Flat code: a program as one list of instructions, its validity, and its runs.
#![tactic(auto)]

mod balance;
mod code;
mod instruction;
pub mod laws;
mod validity;

pub use balance::Balance;
pub use code::{Code, CodeFunc, CodeObject};
pub use instruction::{Arg, Do, Home, Instr};
pub use k_ending::{End, Trap};
pub use k_world::{Chunk, Out};
pub use validity::valid;
