//! Which loops are worth making parallel: what each loop saves, and the choice of loops that saves the most.
#![tactic(auto)]

mod advice;
pub mod laws;
mod limits;
mod planning;
mod saving;

pub use advice::{Advice, Pick};
pub use k_selfpar::{Context, ContextFault, ContextList, contexts};
pub use limits::{Limits, standard_limits};
pub use planning::plan;
