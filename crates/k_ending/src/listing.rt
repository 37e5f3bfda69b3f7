//! What a run leaves.

use crate::End;
use k_num::Seq;
use k_optab::Event;

/// A run: its events, the bytes that it writes, and how it ends.
#[derive(Debug, Drop)]
pub struct Listing {
    pub events: Seq<Event>,
    pub output: Seq<u8>,
    pub end: End,
}
