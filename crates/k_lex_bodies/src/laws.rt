//! What the bodies of some macros are: the function's contract is a law, and its body does nothing.
ghost use Rattle.k_lex_bodies.specs.Laws.{JoinedBodyHasChains, LoneHashIsRefused, LastPasteIsRefused};

/// Bodies with `##` and `#`.
pub fn examples()
    ensures joined { JoinedBodyHasChains }
    ensures lone { LoneHashIsRefused }
    ensures last { LastPasteIsRefused }
{}
