//! What holds of listings: the function's contract is a law, and its body does nothing.
ghost use Rattle.k_report.specs.Laws.{GraphTextIsUnique};

/// A run and its tree have one listing.
pub fn one_listing()
    ensures { GraphTextIsUnique }
{}
