//! Profiles as they are saved.

use k_dict_entries::{Dict, Entry};
use k_num::Seq;
use k_optab::Region;

/// A run's end and the number of its operations, the program's regions, and the dictionary of its instances, the root's entry
/// last.
#[derive(Drop)]
pub struct Saved {
    /// What main returned.
    pub exit: i32,
    /// How many operations were made.
    pub ops: u64,
    pub regions: Seq<Region>,
    pub dict: Dict,
}

/// A profile as format 1 has it: the children of an entry are in the order in which they were entered, as maximal runs. So there
/// may be several entries for instances that differ in the order of their children alone.
#[derive(Drop)]
pub struct Old {
    /// What main returned.
    pub exit: i32,
    /// How many operations were made.
    pub ops: u64,
    pub regions: Seq<Region>,
    /// The entries of the instances in post-order, each where it first occurs.
    pub entries: Seq<Entry>,
}
