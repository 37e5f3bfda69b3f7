//! What holds of the lines of a source: each function's contract is a law, and its body does nothing.
ghost use Rattle.k_lex_sources.specs.Laws.{OnlyJoinsAreLeftOut, JoinedStringIsOne, ReadPragmasHaveNoQuotes};
ghost use Rattle.k_lex_sources.specs.Laws.{TrigraphsJoinNoLines};

/// Nothing but backslashes before newlines is left out.
pub fn only_joins_are_left_out()
    ensures { OnlyJoinsAreLeftOut }
{}

/// What the lines of some sources are.
pub fn examples()
    ensures joined { JoinedStringIsOne }
    ensures pragma { ReadPragmasHaveNoQuotes }
    ensures trigraph { TrigraphsJoinNoLines }
{}
