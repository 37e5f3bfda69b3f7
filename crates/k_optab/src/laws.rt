//! What holds of paths, times and instances, whatever the run: each function's contract is a law, and its
//! body does nothing.
ghost use Rattle.k_optab.specs.GraphLaws.{
  PathIsAtMostWork,
  HeaviestIsUnique,
  HeaviestToIsUnique,
  HeaviestToExists,
  TimeBeforeIsZero,
  LongerHistoryKeepsPaths,
  LongerHistoryKeepsWork,
  LongerHistoryKeepsHeaviest,
  LongerHistoryKeepsTimes,
  TimeFromSources,
  GreatestOfSources,
  HeaviestOfOneMore,
  HeaviestIsAtMostWork,
  InnerPathIsAtMostOuter,
};
ghost use Rattle.k_optab.specs.InstanceLaws.{ExitIsMatching, IntervalsCountOperations, InstancesAreLeftLater, InstancesNeverCross, IntervalsLieAsInstances};
ghost use Rattle.k_optab.specs.Meaning.{ChoicesAreBounded, PathIsAtMostRowAndOwnWork, RegionsAreBounded, TreesHaveBoundedPaths};
ghost use Rattle.k_optab.specs.OpenLaws.{
  BalancedLeaveNothingOpen,
  EntersOpenInstances,
  ExitsCloseTheLast,
  IdleExitsKeepInstances,
  OpenDepthsCount,
  OpenInstancesBegan,
  OpenInstancesNest,
  OperationsKeepInstances,
};

/// A path weighs at most the work of its interval.
pub fn path_is_at_most_work()
    ensures { PathIsAtMostWork }
{}

/// The weight of a heaviest path is one number.
pub fn heaviest_is_unique()
    ensures interval { HeaviestIsUnique }
    ensures operation { HeaviestToIsUnique }
{}

/// There is a heaviest path to each operation of an interval.
pub fn heaviest_to_exists()
    ensures { HeaviestToExists }
{}

/// A value from before an interval has the time 0 in it, and no other.
pub fn time_before_is_zero()
    ensures { TimeBeforeIsZero }
{}

/// Operations that are made later change nothing of an interval.
pub fn longer_history()
    ensures paths { LongerHistoryKeepsPaths }
    ensures work { LongerHistoryKeepsWork }
    ensures heaviest { LongerHistoryKeepsHeaviest }
    ensures times { LongerHistoryKeepsTimes }
{}

/// The heaviest path to an operation adds its latency to the greatest time of its unbroken sources.
pub fn time_from_sources()
    ensures time { TimeFromSources }
    ensures greatest { GreatestOfSources }
{}

/// With one operation more, the heaviest path is the heavier of that so far and that to the new operation.
pub fn heaviest_of_one_more()
    ensures { HeaviestOfOneMore }
{}

/// What the numbers of an interval mean: its path is at most its work, at least the path of each interval
/// within it, and at most the paths of instances in a row within it together and the work outside of them.
pub fn meaning_of_numbers()
    ensures work { HeaviestIsAtMostWork }
    ensures inner { InnerPathIsAtMostOuter }
    ensures parts { PathIsAtMostRowAndOwnWork }
{}

/// What the numbers of a run's instances mean, where all that is entered is left: the path of each is at most its work, at
/// least each child's path, and at most its children's paths and its own work. So the paths of a region's instances
/// together are at most their children's paths and their own work together, and so are those of any other choice of instances.
pub fn meaning_of_trees()
    ensures instances { TreesHaveBoundedPaths }
    ensures choices { ChoicesAreBounded }
    ensures regions { RegionsAreBounded }
{}

/// The events before an instance's matching Exit are the balanced ones that an Exit follows.
pub fn exit_is_matching()
    ensures { ExitIsMatching }
{}

/// Closed instances stand in order of entry, each is left after it is entered, and no two of them cross. Their
/// intervals lie as they do, and count the operations between their Enter and their Exit.
pub fn instances_never_cross()
    ensures left { InstancesAreLeftLater }
    ensures apart { InstancesNeverCross }
    ensures intervals { IntervalsLieAsInstances }
    ensures counts { IntervalsCountOperations }
{}

/// What one event more does to the instances that are open and to those that are closed.
pub fn events_change_instances()
    ensures operation { OperationsKeepInstances }
    ensures enter { EntersOpenInstances }
    ensures exit { ExitsCloseTheLast }
    ensures idle { IdleExitsKeepInstances }
{}

/// Open instances lie within each other, in order of entry, and balanced events leave none.
pub fn open_instances_nest()
    ensures depths { OpenDepthsCount }
    ensures around { OpenInstancesNest }
    ensures began { OpenInstancesBegan }
    ensures balanced { BalancedLeaveNothingOpen }
{}
