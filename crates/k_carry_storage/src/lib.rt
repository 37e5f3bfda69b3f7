//! What the turns of each loop of a program share in memory without handing it on, found while flat code runs. No operations are listed: what is kept is the
//! machine's values, for each element the operations that may be the first of an open tracked instance to load it or to store to it, and the pairs.
#![tactic(auto)]

mod accesses;
mod running;
mod table;
mod told;
mod walk;

pub use k_carry_storage_pairs::{LoopStorage, Shared, Sharing, StoragePairs};
pub use running::{storage, storage_told};
pub use told::StorageTold;
