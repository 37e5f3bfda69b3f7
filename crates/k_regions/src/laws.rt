//! What holds of the regions of every source: each function's contract is a law, and its body does nothing.
ghost use Rattle.k_regions.specs.Laws.{FunctionsHaveTheirNames, RegionsAreFew, RegionsComeOfTokens, RegionsHaveTheirNumbers, ReturnedRunsAreOfMain, ReturnedRunsGiveInts, RunsEnterFew, RunsEnterTheirRegions, ThereAreNoOthers};

/// Each function, loop and body of a typed source is the region of its number, and there are no others. Functions have the names
/// that the source gives them.
pub fn regions_have_their_numbers()
    ensures each { RegionsHaveTheirNumbers }
    ensures all { ThereAreNoOthers }
    ensures names { FunctionsHaveTheirNames }
{}

/// A source has at most twice as many regions as nodes, and each stands where a token does and has the name of one.
pub fn regions_come_of_tokens()
    ensures few { RegionsAreFew }
    ensures tokens { RegionsComeOfTokens }
{}

/// A run enters no other regions than those of its source.
pub fn runs_enter_their_regions()
    ensures { RunsEnterTheirRegions }
{}

/// Where main returned, a run is one instance of main, with all others within it.
pub fn runs_are_of_main()
    ensures { ReturnedRunsAreOfMain }
{}

/// A run enters regions at most as often as its source has regions, for each operation that it may make and once more.
pub fn runs_enter_few()
    ensures { RunsEnterFew }
{}

/// What main returned is an int.
pub fn runs_return_ints()
    ensures { ReturnedRunsGiveInts }
{}
