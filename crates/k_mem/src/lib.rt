//! The objects of a running program: arrays of numbers that are made and die in the order of a stack, pointers
//! into them, and the traps that stand for what C leaves undefined.
#![tactic(auto)]

mod cells;
mod extent;
mod fault;
pub mod laws;
mod objects;
mod pointer;
mod start;

pub use fault::{MemTrap, PushFault};
pub use objects::Objects;
pub use pointer::Pointer;
pub use start::Start;
