//! What holds of expansions: each function's contract is a law, and its body does nothing.
ghost use Rattle.k_lex_expansion.specs.Laws.{ExpansionsAreOne, PlainListsStay, NestedCallGives, OwnNameStays};
ghost use Rattle.k_lex_expansion.specs.Laws.{PastingGives, PastingNothingGives, BadPasteFails, TwoArgumentsFail};

/// A list has one expansion.
pub fn expansions_are_one()
    ensures { ExpansionsAreOne }
{}

/// A list without macros stays as it is.
pub fn plain_lists_stay()
    ensures { PlainListsStay }
{}

/// What the standard's rules give where names hide names, and at `##`.
pub fn examples()
    ensures nested { NestedCallGives }
    ensures own { OwnNameStays }
    ensures pasting { PastingGives }
    ensures nothing { PastingNothingGives }
    ensures paste { BadPasteFails }
    ensures arguments { TwoArgumentsFail }
{}
