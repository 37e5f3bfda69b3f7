//! What holds of the files of sums: each function's contract is a law, and its body does nothing.
ghost use Rattle.k_sum_saved.specs.LineLaws.{FirstWrongIsOne, SumHasBounds, WholeIsNotWrong, WholeIsOne};

/// A text has one first wrong line at most, and none where its lines lead to the end; then it tells one sum.
pub fn first_wrong_line()
    ensures one { FirstWrongIsOne }
    ensures none { WholeIsNotWrong }
    ensures whole { WholeIsOne }
{}

/// A sum that can be saved has the bounds of one that is put to others.
pub fn bounds()
    ensures { SumHasBounds }
{}
