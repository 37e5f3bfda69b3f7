//! What holds of verdicts: each function's contract is a law, and its body does nothing.
ghost use Rattle.k_advise_verdicts.specs.Laws.{ChainsTellTheirOwn, EachLoopHasOne, InsideHasPicksAbove, NoLoopHasTwo, ParallelIsFree, PicksAreNoChains};

/// Each loop that has a row has one verdict.
pub fn one_verdict_each()
    ensures some { EachLoopHasOne }
    ensures one { NoLoopHasTwo }
{}

/// A parallel loop is one that the plan picks, has no carried pairs and no storage pairs, and each instance of it was
/// looked at.
pub fn parallel_is_free()
    ensures { ParallelIsFree }
{}

/// The loop of a pick is never a chain.
pub fn picks_are_no_chains()
    ensures { PicksAreNoChains }
{}

/// Of a loop that is inside, a pick is above each context.
pub fn inside_has_picks_above()
    ensures { InsideHasPicksAbove }
{}

/// What is told of a chain is carried by an instance of its own loop.
pub fn chains_tell_their_own()
    ensures { ChainsTellTheirOwn }
{}
