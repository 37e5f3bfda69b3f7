//! What the order of entries is for: each function's contract is a law, and its body does nothing.
ghost use Rattle.k_sum_order.specs.Laws.{BothHaveNoneLeft, FileIsOne, OneHasNoneLeft, OrderIsOne, OrderKeepsRuns};

/// Dictionaries in order that stand for the same trees are one.
pub fn one_order()
    ensures { OrderIsOne }
{}

/// A sum in order tells of the same runs.
pub fn order_keeps_runs()
    ensures { OrderKeepsRuns }
{}

/// The sum of a profile has no entry left over, and two sums together have none where neither has.
pub fn none_is_left()
    ensures one { OneHasNoneLeft }
    ensures both { BothHaveNoneLeft }
{}

/// Profiles of one program have one file, in whatever order and grouping they are put together.
pub fn one_file()
    ensures { FileIsOne }
{}
