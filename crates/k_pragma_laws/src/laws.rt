//! What annotating keeps: each function's contract is a law, and its body does nothing.
ghost use Rattle.k_pragma_laws.specs.Laws.{AnnotatingKeepsTokens, ClauseNamesAreVariables, InsertingKeepsTokens};

/// An annotated source that is not too long has the tokens of the source, in the same order, but for their places.
pub fn tokens_stay()
    ensures inserting { InsertingKeepsTokens }
    ensures annotating { AnnotatingKeepsTokens }
{}

/// The names in the clauses of a marked loop's line are different names of variables of its function.
pub fn names_of_a_clause()
    ensures { ClauseNamesAreVariables }
{}
