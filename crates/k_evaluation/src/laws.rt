//! What holds of every run: each function's contract is a law, and its body does nothing.
ghost use Rattle.k_evaluation.specs.JumpLaws.{StatementsAreListed};
ghost use Rattle.k_evaluation.specs.Laws.{CutRunsBegin, EndedRunsStay, ReturnedRunsAreBalanced, RunsHaveEarlierSources, RunsKeepTheBudget, RunsTakeBoundedTime, RunsWriteBytes};

/// Each source of each operation of a run is an earlier operation.
pub fn sources_are_earlier()
    ensures { RunsHaveEarlierSources }
{}

/// A run makes at most the operations that it may make, and these take at most the greatest latency for each.
pub fn work_is_bounded()
    ensures operations { RunsKeepTheBudget }
    ensures work { RunsTakeBoundedTime }
{}

/// Where main returned, each region that was entered was left.
pub fn regions_are_balanced()
    ensures { ReturnedRunsAreBalanced }
{}

/// A greater budget changes no run but one that ended out of steps, and lets that one go on.
pub fn the_budget_only_cuts()
    ensures ended { EndedRunsStay }
    ensures cut { CutRunsBegin }
{}

/// Where the texts of its program are bytes, so is what a run writes.
pub fn output_is_bytes()
    ensures { RunsWriteBytes }
{}

/// *Marks* lists each statement with the jumps that *Evaluation* finds in it.
pub fn statements_are_listed()
    ensures { StatementsAreListed }
{}
