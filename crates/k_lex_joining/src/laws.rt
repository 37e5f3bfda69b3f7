//! What holds of the end of a source's tokens: the function's contract is a law, and its body does nothing.
ghost use Rattle.k_lex_joining.specs.Laws.{StatedEndsSo};

/// The tokens of a source by the definition of `k_lex` end so.
pub fn stated_ends_so()
    ensures { StatedEndsSo }
{}
