//! Laws of typing. Each is the contract of a function that does nothing.
ghost use Rattle.k_types_meaning.specs.Elaborated.{ExpressionsElaborate};
ghost use Rattle.k_types_meaning.specs.Laws.{StatementsElaborate, BodiesElaborate, SourceMeansOne, SourcesElaborate, StatementHasOneTree, TypedItemsElaborate, TypedTreesElaborate};
ghost use Rattle.k_types_meaning.specs.OneTree.{OneNumbering, OneTypedTree};

/// An expression has a typed tree by the relation exactly where judging it finds no fault, and then the one that is made.
pub fn expressions_elaborate()
    ensures { ExpressionsElaborate }
{}

/// Two numbered trees that are the same but for their numbers are one.
pub fn one_numbering()
    ensures { OneNumbering }
{}

/// Two typed trees of a source are one.
pub fn one_typed_tree()
    ensures { OneTypedTree }
{}

/// A statement has a typed tree by the relation exactly where judging it finds no fault, and then the one that is made;
/// and what is known behind it is what judging says. So do the statements of a function's block.
pub fn statements_elaborate()
    ensures one { StatementsElaborate }
    ensures body { BodiesElaborate }
{}

/// A source means file objects and functions by the relation exactly where judging it finds no fault, and then those that
/// are made.
pub fn sources_elaborate()
    ensures { SourcesElaborate }
{}

/// The typed trees of a source are the numbered trees of what it means by the relation. Typing itself asks nothing of
/// main and of functions that are called and not defined: `typed` is with these faults, `items` without them.
pub fn typed_trees_elaborate()
    ensures typed { TypedTreesElaborate }
    ensures items { TypedItemsElaborate }
{}

/// The relations are functions: a statement has at most one typed tree, and a source means at most one thing.
pub fn one_meaning()
    ensures statement { StatementHasOneTree }
    ensures source { SourceMeansOne }
{}
