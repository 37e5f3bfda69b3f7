//! Runs of valid code from which main returned: each function's contract is a law, and its body does nothing.
ghost use Rattle.k_hcpa_balanced.specs.Laws.{ReturnedRunsAreOneInstance, ReturnedRunsHaveProfiles};

/// What was entered was left, main's region last, and no source is a later operation.
pub fn returned_runs_are_one_instance()
    ensures { ReturnedRunsAreOneInstance }
{}

/// Each instance's path is at most its work, at least each child's path, and at most the children's paths and its own work together; and the entries of
/// the tree's dictionary are those of a profile.
pub fn returned_runs_have_profiles()
    ensures { ReturnedRunsHaveProfiles }
{}
