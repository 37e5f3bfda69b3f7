//! What holds of the functions of every source: the function's contract is a law, and its body does nothing.
ghost use Rattle.k_lower_texts.specs.Laws.{FunctionsPass};

/// In each function of a source that the grammar gives, without faults, strings, formats, calls and constants are as asked, where the strings and the
/// constants of the source are, and what typing makes of constants, and where each call is that has a value exactly where its function has one.
pub fn functions_pass()
    ensures { FunctionsPass }
{}
