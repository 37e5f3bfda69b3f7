//! What holds of each accepted program: the function's contract is a law, and its body does nothing.
ghost use Rattle.k_lower_accepted.specs.Laws.{AcceptedProgramsAreSmall, AcceptedProgramsAreSound, AcceptedProgramsFit};

/// A program as its source is accepted fits, so that its flat code is valid; each expression in it is sound, so that the code of it does what it
/// means; and all numbers of the code are far below 2^32.
pub fn accepted_programs_fit()
    ensures fit { AcceptedProgramsFit }
    ensures sound { AcceptedProgramsAreSound }
    ensures small { AcceptedProgramsAreSmall }
{}
