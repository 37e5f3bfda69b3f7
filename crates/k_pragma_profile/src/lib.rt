//! The source of a run with what its functions and loops took, and an OpenMP line before each loop that the plan of the run picks and that may run in
//! parallel.
#![tactic(auto)]

mod annotated;
pub mod laws;
mod strict;

pub use annotated::run_annotation;
pub use strict::unshared;
