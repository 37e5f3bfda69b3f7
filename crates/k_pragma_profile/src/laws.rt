//! What holds of these sources: the function's contract is a law, and its body does nothing.
ghost use Rattle.k_pragma_profile.specs.Laws.{RunAnnotationIsUnique};

/// A run has one annotated source.
pub fn one_annotation()
    ensures { RunAnnotationIsUnique }
{}
