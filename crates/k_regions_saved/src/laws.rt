//! What holds of the regions of every source without faults: the function's contract is a law, and its body does nothing.
ghost use Rattle.k_regions_saved.specs.Saving.{RegionsCanBeSaved};

/// The regions of a source without faults are those of a profile that can be saved.
pub fn regions_can_be_saved()
    ensures { RegionsCanBeSaved }
{}
