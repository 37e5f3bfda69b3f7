//! The dictionary of summaries: one entry for each shape of a tree of region instances, with its children as runs of earlier
//! entries.
#![tactic(auto)]

mod dict;
mod entry;
mod expansion;
mod gathering;
pub mod laws;
mod table;
mod tally;

pub use dict::{Dict, DictFault, Which};
pub use entry::{Entry, Run};
pub use expansion::{ExpandFault, expand};
pub use gathering::gather;
pub use k_optab::Node;
pub use table::EntryTable;
pub use tally::Tally;
