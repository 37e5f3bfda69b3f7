//! What the steps mean, over whole sources. Each function's contract is a law, and its body does nothing.
ghost use Rattle.k_lex_groups.specs.Laws.{BlocksAreRead, EndedAreBlocks, OpenGoesOn, RefusedIsNone};

/// The lines of a block are those that are refused nowhere and leave no `#if` open, and those of its lines are read that its groups give.
pub fn blocks()
    ensures read { BlocksAreRead }
    ensures ended { EndedAreBlocks }
{}

/// A line is refused exactly where no block has the lines up to it: what isn't refused goes on to a block.
pub fn refusals()
    ensures refused { RefusedIsNone }
    ensures goes_on { OpenGoesOn }
{}
