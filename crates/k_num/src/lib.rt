//! The base of every other crate: lists and texts that contracts see as plain data, places in a source, the numbers with which objects
//! begin, and the kinds and operators of C's whole numbers with their laws.
#![tactic(auto)]

mod binary_operators;
mod boxed;
mod initial;
mod kinds;
pub mod laws;
mod memory;
mod numbers;
mod place;
mod seq;
mod stack;
mod text;
mod unary_operators;

pub use binary_operators::binary;
pub use boxed::Box;
pub use initial::Initial;
pub use kinds::{bytes, common, convert, holds, promote};
pub use memory::NoMemory;
pub use numbers::{Bin, Kind, NumTrap, Un};
pub use place::Place;
pub use seq::Seq;
pub use stack::Stack;
pub use text::Text;
pub use unary_operators::unary;
