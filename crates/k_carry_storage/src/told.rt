//! What is told of a run.

use k_carry_storage_pairs::StoragePairs;
use k_num::Seq;

/// What the turns of the loops of a run share, and for each region, by its number, whether an instance of it was too deep to be looked at. A region behind
/// the last one that is told of had none.
#[derive(Drop)]
pub struct StorageTold {
    pub pairs: StoragePairs,
    pub deep: Seq<bool>,
}
