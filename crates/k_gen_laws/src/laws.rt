//! What holds of made programs: the function's contract is the law, and its body does nothing.
ghost use Rattle.k_gen_laws.specs.Laws.{MadeProgramsAreSources};

/// Each made program of at most 2,000 loops, from whatever number, has tokens, these a tree, and the tree no fault.
pub fn made_programs_are_sources()
    ensures { MadeProgramsAreSources }
{}
