//! What holds of reports: each function's contract is a law, and its body does nothing.
ghost use Rattle.k_report_profile.specs.Laws.{ProfilesCanBeSaved, ReportIsUnique, RunReportIsUnique};

/// A profile has one report, and a run leaves one profile or none, and one report.
pub fn one_report()
    ensures profile { ReportIsUnique }
    ensures run { RunReportIsUnique }
{}

/// What a run leaves from which main returned can be saved, where its tree has at most 2^59 instances.
pub fn saved_runs()
    ensures { ProfilesCanBeSaved }
{}
