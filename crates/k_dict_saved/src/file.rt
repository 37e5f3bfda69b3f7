//! What the bytes of a file tell, in either format.

use crate::format::Format;
use k_dict_entries::EntryTable;
use k_num::Seq;
use k_optab::Region;

/// A saved profile as it stands in a file of its format.
#[derive(Drop)]
pub struct File {
    pub format: Format,
    /// What main returned.
    pub exit: i32,
    /// How many operations were made.
    pub ops: u64,
    pub regions: Seq<Region>,
    pub entries: EntryTable,
}
