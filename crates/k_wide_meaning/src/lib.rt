//! What the marks of a typed tree are in Wide: loops as OpenMP knows them, and reductions as people write them. The definitions, and the types that they
//! share with the code that makes these marks.
#![tactic(auto)]

pub mod laws;
mod loops;
mod occurrences;
mod signs;

pub use loops::LoopSort;
pub use occurrences::{Occurrence, Reducing, Scalar, ScalarRead, WideGroup};
pub use signs::Sign;
