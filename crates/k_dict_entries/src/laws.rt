//! What holds of dictionaries and the trees that they stand for: each function's contract is a law, and its body does nothing.
ghost use Rattle.k_dict_entries.specs.Laws.{AlikeBothWays, AlikeGoesOn, DictionaryExists, DictionaryExpands, DictionaryIsUnique, GatheredAgain};

/// Each tree of instances has one dictionary.
pub fn one_dictionary()
    ensures exists { DictionaryExists }
    ensures unique { DictionaryIsUnique }
{}

/// A tree's dictionary expands to the tree, up to the order of siblings, and the root's entry is its last.
pub fn dictionary_expands()
    ensures { DictionaryExpands }
{}

/// To be equal up to the order of siblings goes both ways, and on.
pub fn order_of_siblings()
    ensures both_ways { AlikeBothWays }
    ensures goes_on { AlikeGoesOn }
{}

/// The dictionary of what a dictionary expands to has the same entries, though maybe other numbers for them.
pub fn gathered_again()
    ensures { GatheredAgain }
{}
