//! What holds of the operations that a run of flat code performs: the contract of a function that does nothing.
ghost use Rattle.k_replay_code.specs.Telling.{PerformedIsTold, PerformedOnce};

/// What the steps of a run perform is what is told of them, and behind its end a run performs no more.
pub fn performed_is_told()
    ensures told { PerformedIsTold }
    ensures once { PerformedOnce }
{}
