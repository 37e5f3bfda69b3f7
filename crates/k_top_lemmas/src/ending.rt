//! How the call ends.
use k_num::Seq;
use k_top_answers::Failure;

/// Why the call does not end with status 0, if it doesn't, and what more is told of that on err, behind the line that tells why, if more is.
#[derive(Drop)]
pub struct Ending {
    pub failure: Option<Failure>,
    pub more: Option<Seq<u8>>,
}
