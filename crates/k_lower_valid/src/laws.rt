//! What holds of lowered code as a text: each function's contract is a law, and its body does nothing.
ghost use Rattle.k_lower_valid.specs.Laws.{LoweredCodeIsValid};

/// The flat code of a program that fits is valid.
pub fn lowered_code_is_valid()
    ensures { LoweredCodeIsValid }
{}
