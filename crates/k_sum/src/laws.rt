//! What holds of sums: each function's contract is a law, and its body does nothing.
ghost use Rattle.k_sum.specs.Laws.{BothTellOfAll, ExitsAddUp, GroupingIsFree, OneTellsOfItsRun, OrderIsFree};

/// The sum of a profile tells of its run, whose tree is that of the profile.
pub fn run_of_one()
    ensures { OneTellsOfItsRun }
{}

/// Two sums together tell of the runs of both, whichever comes first and whichever are put together first.
pub fn runs_of_both()
    ensures all { BothTellOfAll }
    ensures order { OrderIsFree }
    ensures grouping { GroupingIsFree }
{}

/// As many runs of two sums together ended with a value as of both.
pub fn exits_of_both()
    ensures { ExitsAddUp }
{}
