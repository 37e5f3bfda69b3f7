//! Where a machine stands in a run of flat code behind each instruction: each function's contract is a law, and its body does nothing.
ghost use Rattle.k_hcpa_standing.specs.Laws.{AddressesStand, BacksStand, FillsStand, KeepsStand, RestoresStand, SavesStand};
ghost use Rattle.k_hcpa_standing.specs.Laws.{CallsStand, LastReturnsStand, OverflowsStand, ReturnsStand};
ghost use Rattle.k_hcpa_standing.specs.Laws.{ClosingStands, ForgettingStands, JumpsStand, OpeningStands};
ghost use Rattle.k_hcpa_standing.specs.Laws.{EndsStand, EntersStand, ExitsStand, OperationsStand, ReadsAreCounted, StartsStand};

/// A machine begins where a run begins, with the instance of main.
pub fn starts_stand()
    ensures { StartsStand }
{}

/// Behind an operation by which a call goes on.
pub fn operations_stand()
    ensures { OperationsStand }
{}

/// Behind a jump, and behind what ends or begins locations.
pub fn others_stand()
    ensures jump { JumpsStand }
    ensures forget { ForgettingStands }
    ensures open { OpeningStands }
    ensures close { ClosingStands }
    ensures address { AddressesStand }
    ensures fill { FillsStand }
{}

/// Behind what saves control sources and takes them back.
pub fn control_sources_stand()
    ensures save { SavesStand }
    ensures keep { KeepsStand }
    ensures back { BacksStand }
    ensures restore { RestoresStand }
{}

/// Behind the entry and the exit of an instance.
pub fn instances_stand()
    ensures enter { EntersStand }
    ensures exit { ExitsStand }
{}

/// Behind a call, or where too many calls are open for it.
pub fn calls_stand()
    ensures call { CallsStand }
    ensures overflow { OverflowsStand }
{}

/// Behind a return, or where the return of main's call ends the run.
pub fn returns_stand()
    ensures back { ReturnsStand }
    ensures last { LastReturnsStand }
{}

/// Where an instruction ends the run.
pub fn ends_stand()
    ensures { EndsStand }
{}

/// An operation that is made reads times no more often than is counted of its instruction.
pub fn reads_are_counted()
    ensures { ReadsAreCounted }
{}
