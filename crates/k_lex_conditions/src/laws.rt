//! Laws of conditions. Each is the contract of a function that does nothing.
ghost use Rattle.k_lex_conditions.specs.Conditions.{TreeIsUnique};
ghost use Rattle.k_lex_conditions.specs.Laws.{Examples};

/// The tokens of a condition are those of one tree.
pub fn one_tree()
    ensures { TreeIsUnique }
{}

/// Conditions whose value is told.
pub fn examples()
    ensures { Examples }
{}
