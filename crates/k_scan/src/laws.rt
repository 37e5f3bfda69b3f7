//! What is taken off the front of a text was spelled there, and what is spelled there is taken off: each function's contract is
//! a law, and its body does nothing.
ghost use Rattle.k_scan.specs.Laws.{NameAgain, NameTakes, NumberAgain, NumberTakes, SignedAgain, SignedTakes, WordAgain, WordTakes};

/// Words.
pub fn words()
    ensures takes { WordTakes }
    ensures again { WordAgain }
{}

/// Numbers.
pub fn numbers()
    ensures takes { NumberTakes }
    ensures again { NumberAgain }
{}

/// Signed numbers.
pub fn signed_numbers()
    ensures takes { SignedTakes }
    ensures again { SignedAgain }
{}

/// Names.
pub fn names()
    ensures takes { NameTakes }
    ensures again { NameAgain }
{}
