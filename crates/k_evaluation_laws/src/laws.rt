//! What holds of the values of every run: each function's contract is a law, and its body does nothing.
ghost use Rattle.k_evaluation_laws.specs.Laws.{ElementsAreHeld, ExpressionsGiveTheirTypes, FunctionsBeginRight, FunctionsKeepKinds, IsProgramOf, MainGivesAnInt, ObjectsBeginRight, RunsStartRight, StatementsKeepKinds, VariableIsConverted, VariablesAreHeld};

/// In each run of a source that typing accepts, variables and objects hold what their types say: a variable of a kind holds a number that
/// the kind holds, and so does each element of an object of a kind; a pointer to a kind points into an object of the kind. A run starts so,
/// a function that is entered with arguments of its parameters' types begins so, and no expression, no statement and no function changes
/// it. An expression gives a value of its type, a function one of the type of its result, and main an int.
///
/// Of the source it is a premise that the grammar gives it, that its strings are within the limit, and that the kinds of its integer constants
/// hold these and int its character constants; of the input, that each byte is less than 256. That every other constant in the typed tree, as
/// one that is converted or the size of a type, is a number of its kind, is proved, and so is that a constant expression with which a file
/// object begins comes to a number of that object's kind. `k_evaluation_accepted` has the same of each accepted text, without these premises.
pub fn values_are_of_their_kinds()
    ensures objects { ObjectsBeginRight IsProgramOf }
    ensures start { RunsStartRight IsProgramOf }
    ensures expressions { ExpressionsGiveTheirTypes IsProgramOf }
    ensures statements { StatementsKeepKinds IsProgramOf }
    ensures entered { FunctionsBeginRight }
    ensures functions { FunctionsKeepKinds IsProgramOf }
    ensures main { MainGivesAnInt IsProgramOf }
    ensures variables { VariablesAreHeld }
    ensures elements { ElementsAreHeld }
{}

/// Before the k-th test of a counted loop, from 0, its variable is `x + k * step` as a number of its kind, where it was x before the
/// loop. `k_marks_laws` says so from the first step on; before it, the variable is x, which its kind holds.
pub fn induction_from_the_first()
    ensures { VariableIsConverted }
{}
