//! That each question has an answer: each function's contract is a law, and its body does nothing.
ghost use Rattle.k_top_exists.specs.Files.{FileIsAnswered, FileOfThreeIsAnswered, OtherFileIsRefused, SavedFileIsAnswered, TableIsAnswered, WordsAreAnswered};
ghost use Rattle.k_top_exists.specs.Graphs.{GraphTextsExist, HeaviestPathsExist, ListingsExist, TreesExist};
ghost use Rattle.k_top_exists.specs.Laws.{WordsHaveOneAnswer};
ghost use Rattle.k_top_exists.specs.Loops.{CarriedPairsExist};
ghost use Rattle.k_top_exists.specs.Profiles.{DictionariesExist, ProfileReportsExist, ReadReportsExist, RowsExist, RunReportsExist};
ghost use Rattle.k_top_exists.specs.Sources.{FaultlessSourcesAreTyped, ListsAreRead};

/// All words have exactly one answer, whatever the outside holds.
pub fn exactly_one_answer()
    ensures { WordsHaveOneAnswer }
{}

/// Any bytes tell a table of latencies, or are refused as one.
pub fn tables()
    ensures { TableIsAnswered }
{}

/// Any words ask for a job, or one of them is the first wrong one.
pub fn words()
    ensures { WordsAreAnswered }
{}

/// Any bytes spell a file of one of the formats that are read, or have a first wrong line.
pub fn files()
    ensures { FileIsAnswered }
{}

/// Any bytes spell a saved profile, in either format, or have a first wrong line. Sums are a third format: bytes with its first line spell a sum, or have a first
/// wrong line by its rules. Bytes with none of the three first lines are wrong at byte 0.
pub fn saved_files()
    ensures profile { SavedFileIsAnswered }
    ensures sum { FileOfThreeIsAnswered }
    ensures other { OtherFileIsRefused }
{}

/// The tokens of a source are read to a tree of syntax, or to a refusal, and want of memory is none.
pub fn lists_are_read()
    ensures { ListsAreRead }
{}

/// A source without a fault has a typed tree.
pub fn faultless_sources_are_typed()
    ensures { FaultlessSourcesAreTyped }
{}

/// Each run has a listing of its instances, and a tree, to any depth.
pub fn listings_exist()
    ensures listing { ListingsExist }
    ensures tree { TreesExist }
{}

/// Each interval with an operation has a chosen heaviest path.
pub fn heaviest_paths_exist()
    ensures { HeaviestPathsExist }
{}

/// Each run has a text of its graph.
pub fn graph_texts_exist()
    ensures { GraphTextsExist }
{}

/// The loops of each run carry some pairs.
pub fn carried_pairs()
    ensures { CarriedPairsExist }
{}

/// Each tree of instances has a dictionary.
pub fn dictionaries()
    ensures { DictionariesExist }
{}

/// Each tree of instances has rows.
pub fn rows()
    ensures { RowsExist }
{}

/// A profile that can be saved, or that bytes spell, has a report.
pub fn profile_reports()
    ensures saved { ProfileReportsExist }
    ensures read { ReadReportsExist }
{}

/// A run from which main returned leaves a profile or none, and has a report.
pub fn run_reports()
    ensures { RunReportsExist }
{}
