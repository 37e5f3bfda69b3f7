//! Laws of declarations. Each is the contract of a function that does nothing.
ghost use Rattle.k_types_laws.specs.Laws.{DeclaratorsElaborate, InitialisersElaborate, ObjectSizesElaborate, ParameterSizesElaborate, ParametersElaborate, TypesElaborate};

/// The sizes of a declarator that judging finds no fault in are those that its dimensions and its initialiser give, and so for
/// those of a parameter; with the variables that `&` is applied to in them.
pub fn dimensions_elaborate()
    ensures object { ObjectSizesElaborate }
    ensures parameter { ParameterSizesElaborate }
{}

/// What an object of a type begins with is what judging its initialiser finds without a fault.
pub fn initialisers_elaborate()
    ensures { InitialisersElaborate }
{}

/// What a declarator declares is the object that judging it makes without a fault; and its type is the one that judging finds.
pub fn declarators_elaborate()
    ensures types { TypesElaborate }
    ensures objects { DeclaratorsElaborate }
{}

/// What a parameter declares is a variable of the type that judging finds without a fault.
pub fn parameters_elaborate()
    ensures { ParametersElaborate }
{}
