//! What holds of each accepted program: the function's contract is a law, and its body does nothing.
ghost use Rattle.k_evaluation_laws.specs.Laws.{ExpressionsGiveTheirTypes, FunctionsKeepKinds, MainGivesAnInt, ObjectsBeginRight, RunsStartRight, StatementsKeepKinds};
ghost use Rattle.k_evaluation_accepted.specs.Laws.{AcceptedProgramsAreOfTheirSources, IsAcceptedText};

/// The laws of values of `k_evaluation_laws` hold of each program that some text is accepted as, with no premise beside that but an input
/// of bytes: the lexer gives each constant a kind that holds it and each character constant the value of a char, and what a constant
/// expression comes to, by which file objects begin, is of its type.
pub fn accepted_values_are_of_their_kinds()
    ensures programs { AcceptedProgramsAreOfTheirSources }
    ensures objects { ObjectsBeginRight IsAcceptedText }
    ensures start { RunsStartRight IsAcceptedText }
    ensures expressions { ExpressionsGiveTheirTypes IsAcceptedText }
    ensures statements { StatementsKeepKinds IsAcceptedText }
    ensures functions { FunctionsKeepKinds IsAcceptedText }
    ensures main { MainGivesAnInt IsAcceptedText }
{}
