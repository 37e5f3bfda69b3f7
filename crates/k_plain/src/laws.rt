//! What counted loops and reductions mean in a run.
pub use k_marks_laws::laws::{induction, induction_of_sources, reduction, reduction_of_sources};
