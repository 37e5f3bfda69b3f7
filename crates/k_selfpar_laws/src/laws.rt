//! What contexts, rows and dictionaries are: each function's contract is a law, and its body does nothing.
ghost use Rattle.k_selfpar_laws.specs.Example.{HasContexts, HasEntries, HasRows};
ghost use Rattle.k_selfpar_laws.specs.Laws.{ContextsAreInOrder, ContextsAreOneByPaths, RowsAreSums};
ghost use Rattle.k_selfpar_laws.specs.Renumbered.{EntriesAreGatheredAgain};

/// Each context tells of the instances with one list of regions from the root, its path; each path that an instance has is that of
/// one context; a context's path is that of its parent, with its own region behind; and the paths rise in lexicographic order.
pub fn contexts_in_order()
    ensures { ContextsAreInOrder }
{}

/// Over the contexts of a region, instances, works and paths add up to its row's. The self-parallelism of a row is that of the
/// instances of these contexts together.
pub fn rows_by_contexts()
    ensures { RowsAreSums }
{}

/// The dictionary of what the entries of a saved profile expand to has these entries, up to their numbers.
pub fn entries_again()
    ensures { EntriesAreGatheredAgain }
{}

/// No other contexts are those of a forest by their paths.
pub fn one_by_paths()
    ensures { ContextsAreOneByPaths }
{}

/// A worked example, by hand: a loop of six turns of two kinds has a dictionary of four entries, three rows and three contexts, and could be
/// 35/4 times as fast.
pub fn worked_example()
    ensures entries { HasEntries }
    ensures rows { HasRows }
    ensures contexts { HasContexts }
{}
