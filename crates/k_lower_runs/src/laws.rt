//! What holds of the runs of lowered code: each function's contract is a law, and its body does nothing.
ghost use Rattle.k_lower_runs.specs.Laws.{ExpressionsDoWhatTheyMean};

/// The code of an expression does what the expression means, with the same operations in the same order, the same value and the same end, as
/// far as the code of its calls does what they mean.
pub fn expressions_do_what_they_mean()
    ensures { ExpressionsDoWhatTheyMean }
{}
