//! Laws of trees and their tokens. Each is the contract of a function that does nothing.
ghost use Rattle.k_tree.specs.Laws.{RankByForm, ExpressionsBegin, StatementsBegin};
ghost use Rattle.k_tree.specs.Laws.{DeclarationsDiffer, PiecesSpell, NodesBounded};

/// The ranks of an expression are those up to that of its form.
pub fn rank_by_form()
    ensures { RankByForm }
{}

/// With what an expression begins.
pub fn expressions_begin()
    ensures { ExpressionsBegin }
{}

/// With what a statement begins.
pub fn statements_begin()
    ensures { StatementsBegin }
{}

/// A specifier tells a declaration from a statement.
pub fn declarations_differ()
    ensures { DeclarationsDiffer }
{}

/// The tokens at which nodes stand are those of the spelling.
pub fn pieces_spell()
    ensures { PiecesSpell }
{}

/// How many nodes a source has at most, by its tokens.
pub fn nodes_bounded()
    ensures { NodesBounded }
{}
