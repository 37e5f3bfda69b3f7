//! The dependences that each loop of a program carries from turn to turn, found while flat code runs. No operations are listed: what is kept is the
//! machine's values, for each location the place of the operation that gave its value, for each open tracked loop the first operations of its instance
//! and of its turn, and the pairs.
#![tactic(auto)]

pub mod advance;
mod cited;
mod kind;
mod places;
mod program;
mod row;
mod running;
mod sources;
mod walk;

pub use k_carry_pairs::{CarriedPairs, LoopPairs, Pair};
pub use running::carried;
