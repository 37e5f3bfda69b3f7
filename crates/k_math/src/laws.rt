//! What holds of the functions: each function's contract is a law, and its body does nothing.
ghost use Rattle.k_math.specs.Remainder.{RemainderIsExact};

/// `fmod` is exact.
pub fn remainder()
    ensures { RemainderIsExact }
{}
