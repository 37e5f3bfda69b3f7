//! What holds of the typed tree of every source before it is numbered: the function's contract is the law, and its body
//! does nothing.
ghost use Rattle.k_types_bare.specs.Laws.{TypingMakesNoNumbers};

/// The tree that the items of a source come to has no numbers.
pub fn typing_makes_no_numbers()
    ensures { TypingMakesNoNumbers }
{}
