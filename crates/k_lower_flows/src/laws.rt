//! What a lowered program does: each function's contract is a law, and its body does nothing.
ghost use Rattle.k_lower_flows.specs.Laws.{CodeDoesAsItsProgram, CodeRunsAsItsProgram};

/// The flat code of a program makes the operations of the program in their order, writes its output and ends as it does, on each input and under
/// each budget.
pub fn code_runs_as_its_program()
    ensures { CodeRunsAsItsProgram }
{}

/// Its operations do what those of the program do: each has the act, the operands and the value of the program's.
pub fn code_does_as_its_program()
    ensures { CodeDoesAsItsProgram }
{}
