//! The dictionary of summaries and its saved file: the names of both crates below it, under the one name by which others know them.
#![tactic(auto)]

pub use k_dict_entries::{Dict, DictFault, Entry, ExpandFault, Node, Run, Which, expand, gather};
pub use k_dict_saved::{Old, Saved, SavedFault, migrate, read, read_old, write};
