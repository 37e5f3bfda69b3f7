//! What holds of the functions of every source: each function's contract is a law, and its body does nothing.
ghost use Rattle.k_lower_fits.specs.Laws.{DeclarationsArePlaced, FunctionsAreSmall, FunctionsFit};

/// Each function of a source without faults fits: what it names is there, its calls have as many arguments as parameters,
/// values are used only where there are some, and jumps have targets.
pub fn functions_fit()
    ensures { FunctionsFit }
{}

/// Each function of a source without faults takes at most 2 registers and 512 instructions for each node of its definition.
pub fn functions_are_small()
    ensures { FunctionsAreSmall }
{}

/// In each function of a source that the grammar gives, declarations stand directly in blocks and in first parts of `for`
/// alone.
pub fn declarations_are_placed()
    ensures { DeclarationsArePlaced }
{}
