//! What holds of the reading of lines: each function's contract is a law, and its body does nothing but recall others.
ghost use Rattle.k_lex_lines.specs.Laws.{ReadingsAreOne, UnreadGroupsGiveNothing, OneGroupIsRead, PlainTextStays};
ghost use Rattle.k_lex_lines.specs.Laws.{AlternativesGive, SecondElseIsStray, OpenIfIsAtIf, FoundNameHolds};
ghost use Rattle.k_lex_lines.specs.Laws.{CutUseIsRefused};

use k_lex_expansion::laws::{expansions_are_one, plain_lists_stay};

/// Lines have one reading.
pub fn readings_are_one()
    ensures { ReadingsAreOne }
{
    expansions_are_one();
}

/// Of a section at most one group is read, and the others are as if they were not there.
pub fn groups()
    ensures unread { UnreadGroupsGiveNothing }
    ensures one { OneGroupIsRead }
{}

/// Text without directives and macros is read as its own tokens.
pub fn plain_text_stays()
    ensures { PlainTextStays }
{
    plain_lists_stay();
}

/// What some lines give, or why they are refused.
pub fn examples()
    ensures alternatives { AlternativesGive }
    ensures stray { SecondElseIsStray }
    ensures open { OpenIfIsAtIf }
    ensures found { FoundNameHolds }
    ensures cut { CutUseIsRefused }
{
    plain_lists_stay();
}
