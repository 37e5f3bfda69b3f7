//! How the parts of a run end: each function's contract is a law, and its body does nothing.
ghost use Rattle.k_evaluation_control.specs.Laws.{ExpressionsKeepControl, StatementsEndAsTheirText};

/// An expression leaves the control source as it found it, whatever it tests and calls.
pub fn expressions_keep_control()
    ensures { ExpressionsKeepControl }
{}

/// A statement ends by `break`, `continue` or `return` only where its text holds one that leads out of it. Where it holds none, it leaves the
/// control source as it found it.
pub fn statements_end_as_their_text()
    ensures { StatementsEndAsTheirText }
{}
