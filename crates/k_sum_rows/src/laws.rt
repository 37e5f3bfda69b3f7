//! What holds of the rows and the contexts of runs: each function's contract is a law, and its body does nothing.
ghost use Rattle.k_sum_rows.specs.Laws.{ContextsAreOne, ContextsForgetOrder, OneRunIsItsTree, RowsAddUp, RowsForgetOrder};

/// The rows and the contexts of one run are those of its tree.
pub fn one_run()
    ensures { OneRunIsItsTree }
{}

/// They do not depend on which run comes first, nor on the order of siblings.
pub fn order_of_runs()
    ensures rows { RowsForgetOrder }
    ensures contexts { ContextsForgetOrder }
{}

/// What runs and others have of a region together is what both have of it.
pub fn rows_of_both()
    ensures { RowsAddUp }
{}

/// Runs have one list of contexts.
pub fn one_list()
    ensures { ContextsAreOne }
{}
