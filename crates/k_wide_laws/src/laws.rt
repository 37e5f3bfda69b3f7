//! What marks in Wide have of *Marks*: each function's contract is a law, and its body does nothing.
ghost use Rattle.k_wide_laws.specs.Laws.{WideHasStated};

/// In each source that has a typed tree, each loop that *Marks* counts is counted in Wide, each read that it breaks is broken, and the same statements
/// hold a leaving jump.
pub fn wide_has_stated()
    ensures { WideHasStated }
{}
