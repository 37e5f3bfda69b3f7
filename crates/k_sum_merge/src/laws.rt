//! What holds of sums that are put together of files: each function's contract is a law, and its body does nothing.
ghost use Rattle.k_sum_merge.specs.Laws.{AnyWayIsOne, MergedHaveBounds};

/// A sum that is put together of files can be put to others.
pub fn bounds_of_merged()
    ensures { MergedHaveBounds }
{}

/// Profiles of one program have one file, in whatever order and grouping they are put together, and whether or not some of them
/// were put together, saved and read again before.
pub fn any_way()
    ensures { AnyWayIsOne }
{}
