//! What the step of an operation has of it, for those who rest on it: the contract of a function that does nothing.
ghost use Rattle.k_replay_recording.specs.Laws.{StepsHaveSources};

/// The sources of an operation are those of its step.
pub fn steps_have_sources()
    ensures { StepsHaveSources }
{}
