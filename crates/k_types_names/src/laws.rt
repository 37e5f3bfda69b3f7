//! Laws of the definition of formats. Each is the contract of a function that does nothing.
ghost use Rattle.k_types_names.specs.Laws.{MarksAreSpelled};

/// A text has just those marks that it spells, and so at most one list of them.
pub fn marks_are_spelled()
    ensures { MarksAreSpelled }
{}
