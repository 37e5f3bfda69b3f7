//! What holds of the functions and of the code of each accepted program: each function's contract is a law, and its body does nothing.
ghost use Rattle.k_lower_sound.specs.Laws.{AcceptedProgramsAreLowered, AcceptedProgramsAreReady, AcceptedStatementsHaveNumbers};

/// A program as its source is accepted is ready to be lowered: its main is there, and each of its functions is sound, so that its code does what it
/// means.
pub fn accepted_programs_are_ready()
    ensures { AcceptedProgramsAreReady }
{}

/// The flat code of a program as its source is accepted is valid, and makes the operations of the program in their order, writes its output and ends
/// as it does, on each input and under each budget.
pub fn accepted_programs_are_lowered()
    ensures { AcceptedProgramsAreLowered }
{}

/// The statements of a program as its source is accepted have numbers that go up in text order, below its count of nodes: each has an entry of its
/// own in a table by these numbers, so that lowering finds all extents that it counts.
pub fn accepted_statements_have_numbers()
    ensures { AcceptedStatementsHaveNumbers }
{}
