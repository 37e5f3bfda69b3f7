//! Laws of fractions, rows and contexts. Each is the contract of a function that does nothing.
ghost use Rattle.k_selfpar.specs.Laws.{ContextsAreByRegions, ContextsAreUnique, ContextsForgetOrder, RowsAreUnique, RowsForgetOrder};
ghost use Rattle.k_selfpar.specs.Ratio.{OneRatio, OneFraction};

/// Two numbers have one ratio in lowest terms.
pub fn one_ratio()
    ensures { OneRatio }
{}

/// Fractions of equal value are equal.
pub fn one_fraction()
    ensures { OneFraction }
{}

/// A tree has one list of rows, and one list of contexts.
pub fn one_list()
    ensures rows { RowsAreUnique }
    ensures contexts { ContextsAreUnique }
{}

/// Rows and contexts do not depend on the order of siblings.
pub fn order_of_siblings()
    ensures rows { RowsForgetOrder }
    ensures contexts { ContextsForgetOrder }
{}

/// The contexts of a tree are its instances, grouped by their lists of regions from the root.
pub fn contexts_by_regions()
    ensures { ContextsAreByRegions }
{}
