//! What each event does to the summaries that a machine keeps: each function's contract is a law, and its body does nothing.
ghost use Rattle.k_hcpa_summed.specs.Laws.{EntriesAreSummed, ExitsAreSummed, NothingIsSummed, OperationsAreSummed, RunsHaveDictionaries};

/// Summaries stay the dictionary so far: at the start, and behind each event.
pub fn summaries_follow_events()
    ensures start { NothingIsSummed }
    ensures operation { OperationsAreSummed }
    ensures enter { EntriesAreSummed }
    ensures exit { ExitsAreSummed }
{}

/// Where nothing is open any more, they are the dictionary of the whole run.
pub fn whole_runs_have_dictionaries()
    ensures { RunsHaveDictionaries }
{}
