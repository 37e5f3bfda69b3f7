//! What holds of plans for a team of threads: each function's contract is a law, and its body does nothing.
ghost use Rattle.k_advise_plan.specs.Laws.{AboveIsTodays, MoreStartSavesNoMore, MoreThreadsSaveNoLess, OuterSavesNoLess, OuterWins, PlanExists, PlanIsUnique, SavesLessThanTheWork};

/// There is exactly one plan.
pub fn one_plan()
    ensures exists { PlanExists }
    ensures unique { PlanIsUnique }
{}

/// With more threads than self-parallelism and starts that are free, a loop saves what it saves by its self-parallelism.
pub fn many_threads()
    ensures { AboveIsTodays }
{}

/// A loop never saves more where a start has a higher price, nor less with more threads.
pub fn prices_and_threads()
    ensures start { MoreStartSavesNoMore }
    ensures threads { MoreThreadsSaveNoLess }
{}

/// An outer loop saves no less than an inner one of the same self-parallelism; and more where it is begun more seldom.
pub fn outer_loops()
    ensures no_less { OuterSavesNoLess }
    ensures wins { OuterWins }
{}

/// A choice of loops of a run with work saves less than the work, so the gain is a ratio.
pub fn saved_work()
    ensures { SavesLessThanTheWork }
{}
