//! The closed instances of a run, each with its work and its critical path, and one heaviest path of an
//! interval of the run's dependence graph.
#![tactic(auto)]

mod chain;
mod choice;
mod level;
mod listing;
mod parents;
mod pass;
mod times;
mod tree;

pub use chain::{heaviest, heaviest_from, place_of};
pub use listing::instances;
pub use tree::{Instance, Tree};
