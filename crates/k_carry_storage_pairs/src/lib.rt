//! What the turns of each loop of a run share in memory without handing it on, gathered event by event: elements that an earlier turn loaded or stored to and a
//! later one stores to.
#![tactic(auto)]

mod access;
mod firsts;
mod flags;
mod gathering;
mod joining;
pub mod laws;
mod pairs;

pub use access::Access;
pub use firsts::{list_firsts, note};
pub use gathering::SharedGathering;
pub use pairs::{LoopStorage, Shared, Sharing, StoragePairs};
