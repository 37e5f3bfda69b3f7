//! Laws of the reading of whole token lists. Each is the contract of a function that does nothing.
ghost use Rattle.k_parse.specs.Laws.{OneAnswer, TreesReadAreRanked, RankedTreesAreRead, OneTreePerSpelling, RefusalsAreFirstWrong};

/// A token list has one answer: the tree that it spells, or one refusal.
pub fn one_answer()
    ensures { OneAnswer }
{}

/// A tree that a token list is read to within the limit of nesting is one that the grammar gives, each of its nodes stands at
/// its token, so that it spells the list, and it is within the limit.
pub fn trees_read_are_ranked()
    ensures { TreesReadAreRanked }
{}

/// Tokens that spell a tree that the grammar gives, within the limit of nesting, are read to that tree, up to places.
pub fn ranked_trees_are_read()
    ensures { RankedTreesAreRead }
{}

/// Two trees of sources that the grammar gives and that have one spelling are equal up to places.
pub fn one_tree_per_spelling()
    ensures { OneTreePerSpelling }
{}

/// A list that is refused is refused at its first wrong token: those before it begin a source within the limit of nesting, and
/// with it they begin none; where it is refused as Syntax they begin none of any nesting, and where it is refused as TooDeep they
/// begin one of a greater nesting.
pub fn refusals_are_first_wrong()
    ensures { RefusalsAreFirstWrong }
{}
