//! What follows from the contracts of sources, sinks and files, for callers to cite.
ghost use Rattle.k_edge.specs.Sure.{SureReads, SurePuts, SureLoads, SureSaves};

/// Where a count of faults is the constant 0, as in the implementations named `Sure`, no fault is answered.
pub fn sure_never_fails()
    ensures reads { SureReads }
    ensures puts { SurePuts }
    ensures loads { SureLoads }
    ensures saves { SureSaves }
{}
