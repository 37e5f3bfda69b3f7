//! What each command writes: each function's contract is a law, and its body does nothing.
ghost use Rattle.k_top_headline.specs.Headline.{RunIsTold};
ghost use Rattle.k_top_headline.specs.OtherCommands.{AcceptedIsTold, AnnotateIsTold, CarriedIsTold, DemoIsTold, GraphIsTold, MadeProgramsAreAccepted, PageIsTold, RefusalIsTold, ShowIsTold};
ghost use Rattle.k_top_headline.specs.Replay.{ReplayIsTold};
ghost use Rattle.k_top_headline.specs.Sums.{MergeIsTold, SumIsTold};

/// `run` of an accepted source writes the program's output and, where main returned, the report of the tree of that run, to which its dictionary expands; it saves
/// the profile of the run where a file is named, and reads the input to its end where the program calls `getchar`. A table of latencies that is wrong is refused.
pub fn run_is_told()
    ensures { RunIsTold }
{}

/// `graph` of an accepted source writes the listing of the run's events and of its instances.
pub fn graph_is_told()
    ensures { GraphIsTold }
{}

/// `carried` of an accepted source writes, where main returned, the pairs of places between which each loop of the run carries dependences.
pub fn carried_is_told()
    ensures { CarriedIsTold }
{}

/// `replay` of an accepted source writes, where main returned, the program's output and in how many rounds so many workers fire the operations of the run.
pub fn replay_is_told()
    ensures { ReplayIsTold }
{}

/// `show` of a saved profile, of either format, writes the report of that file's own tree, or its document or table; of a saved sum it writes that of the trees
/// of all its runs.
pub fn show_is_told()
    ensures profile { ShowIsTold }
    ensures sum { SumIsTold }
{}

/// `merge` of files with runs of one program saves the sum of all these runs, each file counted as often as it is named, and writes nothing.
pub fn merge_is_told()
    ensures { MergeIsTold }
{}

/// `page` of an accepted source writes, where main returned, the page of the tree of that run, beside the source.
pub fn page_is_told()
    ensures { PageIsTold }
{}

/// `annotate` of an accepted source writes, where main returned, the source with what its functions and loops took in the tree of that run, and with an
/// OpenMP line before each loop that the plan picks, that carried nothing, and that may run in parallel.
pub fn annotate_is_told()
    ensures { AnnotateIsTold }
{}

/// `check` writes nothing of a source that is accepted; of one that is refused it tells on err, behind the line of the refusal, its place, a sentence, and its line
/// with a caret.
pub fn check_is_told()
    ensures accepted { AcceptedIsTold }
    ensures refused { RefusalIsTold }
{}

/// Each program of at most 2,000 loops that is made from a number is accepted.
pub fn made_programs_are_accepted()
    ensures { MadeProgramsAreAccepted }
{}

/// `demo` writes the summary of the run of the program that it makes.
pub fn demo_is_told()
    ensures { DemoIsTold }
{}
