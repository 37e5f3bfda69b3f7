//! What the lines of some sources are: the function's contract is a law, and its body does nothing.
ghost use Rattle.k_lex_forms.specs.Laws.{OpenQuoteBreaksItsLine, MacroHasParameter, OpenCommentIsRefused};
ghost use Rattle.k_lex_forms.specs.Laws.{OtherNameIsUnformed};

/// Text and directives, read or not.
pub fn examples()
    ensures quote { OpenQuoteBreaksItsLine }
    ensures parameter { MacroHasParameter }
    ensures comment { OpenCommentIsRefused }
    ensures other { OtherNameIsUnformed }
{}
