//! What holds of codes and of exact decimal texts: each function's contract is a law, and its body does nothing.
ghost use Rattle.k_real.specs.RealLaws.{CodesAreHeld, ConvertedAreHeld, ConvertedAreOfPrecision, ExpansionIsExact, NegatedAreHeld, ResultsAreHeld, ResultsAreOfPrecision};

/// A code loses nothing: it stands for the real that it was made of.
pub fn codes()
    ensures codes { CodesAreHeld }
    ensures results { ResultsAreHeld }
    ensures negated { NegatedAreHeld }
    ensures converted { ConvertedAreHeld }
{}

/// What is made in a precision is of it: to round it there once more changes nothing.
pub fn precisions()
    ensures results { ResultsAreOfPrecision }
    ensures converted { ConvertedAreOfPrecision }
{}

/// Every finite double is a decimal number with so many digits behind the point.
pub fn expansion()
    ensures { ExpansionIsExact }
{}
