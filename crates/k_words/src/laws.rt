//! What holds of answers: each function's contract is a law, and its body does nothing.
ghost use Rattle.k_words.specs.Laws.{AnswerExists, AnswerIsUnique};
ghost use Rattle.k_words.specs.Within.{JobsAreWithin};

/// Any words have exactly one answer that is no want of memory.
pub fn one_answer()
    ensures exists { AnswerExists }
    ensures unique { AnswerIsUnique }
{}

/// The numbers of the job that words ask for lie within their limits.
pub fn jobs_are_within()
    ensures { JobsAreWithin }
{}
