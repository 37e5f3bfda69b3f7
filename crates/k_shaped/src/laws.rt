//! What holds of shaped texts and of conversions: each function's contract is a law, and its body does nothing.
ghost use Rattle.k_shaped.specs.ShapedLaws.{NumbersAreWide, StringsAreWide, PlainNumbers, PlainStrings, PlainReals, WorkedLines, SpelledAreRead, ReadAreSpelled, SpelledOnce};

/// A text is as wide as was asked for.
pub fn width()
    ensures numbers { NumbersAreWide }
    ensures strings { StringsAreWide }
{}

/// With a letter alone texts are those of formats without flags, width and precision.
pub fn bare()
    ensures numbers { PlainNumbers }
    ensures strings { PlainStrings }
    ensures reals { PlainReals }
{}

/// Some lines.
pub fn lines()
    ensures { WorkedLines }
{}

/// A conversion is read as it is spelled, in one way.
pub fn spelling()
    ensures spelled { SpelledAreRead }
    ensures read { ReadAreSpelled }
    ensures once { SpelledOnce }
{}
