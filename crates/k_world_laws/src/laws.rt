//! What holds of every act, of every operation and of the objects that are kept: each function's contract is a law, and its body does
//! nothing.
ghost use Rattle.k_world_laws.specs.Laws.{CallsAreKept, NumbersAreKept, SizeIsKept};
ghost use Rattle.k_world_laws.specs.Laws.{HiddenSees, KeepingAll, KeepingFewer, ResultsAreHeld, WorkSeesMemoryAndInput};
ghost use Rattle.k_world_laws.specs.Laws.{OneFewerIsLeft, OneMoreIsMade, OtherActsKeepControl, TestBecomesControl};

/// What an act gives is the same wherever it finds the same objects and the same input: what happened before has no part in it.
pub fn work_sees_memory_and_input()
    ensures { WorkSeesMemoryAndInput }
{}

/// Where the operand that the construct does not write came from is told by the element that is loaded and its origin, or by the cell
/// IN or OUT.
pub fn hidden_sees()
    ensures { HiddenSees }
{}

/// The result of an act in a kind is a number of that kind, so a later conversion to the kind keeps it.
pub fn results_are_held()
    ensures { ResultsAreHeld }
{}

/// Where fewer and fewer objects are kept, it is as if only the last of these counts had been asked for.
pub fn keeping_fewer()
    ensures { KeepingFewer }
{}

/// To keep all live objects changes nothing.
pub fn keeping_all()
    ensures { KeepingAll }
{}

/// What an operation that gives something leaves: one count goes down and one up, a test becomes the control source, and else control
/// source, calls, their size and the numbers of the live objects are as before.
pub fn operations()
    ensures left { OneFewerIsLeft }
    ensures made { OneMoreIsMade }
    ensures control { OtherActsKeepControl }
    ensures test { TestBecomesControl }
    ensures calls { CallsAreKept }
    ensures size { SizeIsKept }
    ensures numbers { NumbersAreKept }
{}
