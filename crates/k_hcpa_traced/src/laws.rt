//! What holds of each configuration of a run of valid code: each function's contract is a law, and its body does nothing.
ghost use Rattle.k_hcpa_traced.specs.Laws.{ConfigurationsAreTraced, ElementsAreFew, InstructionsAreShort, RegistersAreFew, TouchedElementsAreLive, WorldsAreBounded};

/// Each location's value came from an operation that was made before, each source names an earlier operation, the memory is laid out, each
/// live element has an origin, and as many instances are open as regions. This holds of the world of a run that is over too, as far as it
/// speaks of operations.
pub fn runs_are_traced()
    ensures configurations { ConfigurationsAreTraced }
    ensures worlds { WorldsAreBounded }
{}

/// Latencies, registers and elements have numbers of few digits.
pub fn numbers_are_bounded()
    ensures latencies { InstructionsAreShort }
    ensures registers { RegistersAreFew }
    ensures live { TouchedElementsAreLive }
    ensures elements { ElementsAreFew }
{}
