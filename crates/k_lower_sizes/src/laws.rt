//! What holds of the size of lowered code: each function's contract is a law, and its body does nothing.
ghost use Rattle.k_lower_sizes.specs.Laws.{AllOpenFew, FunctionsStaySmall, NodesAddUp, StringsAreFew, TakeTheirCost};

/// The code of each function of a source without faults takes at most 2 registers and 512 instructions for each node of its definition, and speaks of
/// at most as many objects of a call; expressions and statements have at most as many instructions as their constructs cost; and a statement makes
/// no more objects that live on behind it than it has instructions.
pub fn functions_stay_small()
    ensures small { FunctionsStaySmall }
    ensures costs { TakeTheirCost }
    ensures opens { AllOpenFew }
{}

/// The definitions of all functions of a source, and its file objects, are among its nodes, and a string is paid for by 16 instructions.
pub fn sources_pay()
    ensures nodes { NodesAddUp }
    ensures strings { StringsAreFew }
{}
