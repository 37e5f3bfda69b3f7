//! What holds of the marks in Wide: each function's contract is a law, and its body does nothing.
ghost use Rattle.k_wide_meaning.specs.Laws.{MarksAreUnique, MarksExist};

/// Each typed tree has Wide marks, and no others.
pub fn one_marking()
    ensures exist { MarksExist }
    ensures unique { MarksAreUnique }
{}
