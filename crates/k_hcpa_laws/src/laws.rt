//! The times that a machine keeps are weights of heaviest paths behind each instruction of flat code but a call and a return: each function's
//! contract is a law, and its body does nothing.
ghost use Rattle.k_hcpa_laws.specs.Laws.{AddressesHaveNoTime, FilledElementsHaveNoTime, OperationsKeepTimes};
ghost use Rattle.k_hcpa_laws.specs.Laws.{BacksTakeTimes, KeepsDropTimes, RestoresTakeTimes, SavesKeepTimes};
ghost use Rattle.k_hcpa_laws.specs.Laws.{ClosingObjectsKeepsTimes, ForgettingKeepsTimes, JumpsKeepTimes, OpeningObjectsKeepsTimes};
ghost use Rattle.k_hcpa_laws.specs.Laws.{EndsKeepPaths, OperationsRaisePaths, RefusedOperationsKeepPaths};
ghost use Rattle.k_hcpa_laws.specs.Laws.{EntersAddLevels, ExitsTakeLevels, SoundWorldsAreShort};

/// An operation comes after the latest of what it depends on, by its latency: that is the weight of the heaviest path to it in each open
/// instance, which all that holds what it gave then has.
pub fn operations_keep_times()
    ensures { OperationsKeepTimes }
{}

/// A jump leaves all times as they are, and so does an instruction by which locations are no more or are not set yet.
pub fn others_keep_times()
    ensures jump { JumpsKeepTimes }
    ensures forget { ForgettingKeepsTimes }
    ensures open { OpeningObjectsKeepsTimes }
    ensures close { ClosingObjectsKeepsTimes }
{}

/// What no operation gave has the time 0.
pub fn no_operation_has_no_time()
    ensures address { AddressesHaveNoTime }
    ensures fill { FilledElementsHaveNoTime }
{}

/// A control source that is saved, dropped or taken back has its times.
pub fn control_sources_keep_times()
    ensures save { SavesKeepTimes }
    ensures keep { KeepsDropTimes }
    ensures back { BacksTakeTimes }
    ensures restore { RestoresTakeTimes }
{}

/// An instance that is entered begins without times, and where it is left those of the instances around it stay.
pub fn instances_have_levels()
    ensures enter { EntersAddLevels }
    ensures exit { ExitsTakeLevels }
{}

/// Where a run ends, the paths are those of the operations that were made.
pub fn paths_at_the_end()
    ensures made { OperationsRaisePaths }
    ensures refused { RefusedOperationsKeepPaths }
    ensures ends { EndsKeepPaths }
{}

/// No operations that a run may make take 2^64 together, so no time is ever cut.
pub fn times_fit()
    ensures { SoundWorldsAreShort }
{}
