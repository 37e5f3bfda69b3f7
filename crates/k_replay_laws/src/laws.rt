//! What schedules of workers come to, for those who rest on it: each function's contract is a law, and its body does nothing.
ghost use Rattle.k_replay_laws.specs.Laws.{OneReplayText, OneSchedule, RecordsHaveSchedule, ReplayTextsExist, SchedulesExist};

/// The rounds that workers make over a record are those of the record's operations.
pub fn records_have_schedule()
    ensures { RecordsHaveSchedule }
{}

/// Operations have no two schedules.
pub fn one_schedule()
    ensures schedule { OneSchedule }
    ensures text { OneReplayText }
{}

/// Operations whose sources are earlier ones have a schedule.
pub fn schedules_exist()
    ensures schedule { SchedulesExist }
    ensures text { ReplayTextsExist }
{}
