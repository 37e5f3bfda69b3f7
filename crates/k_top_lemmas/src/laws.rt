//! What holds of answers: the function's contract is a law, and its body does nothing.
ghost use Rattle.k_top_answers.specs.Laws.{AnswersAreUnique, OthersTellTheirLine, RefusalsPutNothing};

/// Words have at most one answer, whatever the outside holds.
pub fn one_answer()
    ensures { AnswersAreUnique }
{}

/// With status 3 or a higher one nothing is put on out; and on err `check` alone tells more than a line.
pub fn refusals()
    ensures nothing { RefusalsPutNothing }
    ensures line { OthersTellTheirLine }
{}
