//! What carried pairs are: each function's contract is a law, and its body does nothing.
ghost use Rattle.k_carry_pairs.specs.Laws.{LaterTurnsAreBehindBodies, OneAnswer};

/// One list of loops tells of a run.
pub fn one_answer()
    ensures { OneAnswer }
{}

/// A later turn is one before which a body ended.
pub fn later_turns()
    ensures { LaterTurnsAreBehindBodies }
{}
