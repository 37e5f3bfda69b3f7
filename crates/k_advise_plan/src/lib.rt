//! Which loops are worth making parallel for a team of threads, where each start of the team has a price: what each loop saves, and
//! the choice of loops that saves the most. No command uses it yet.
//!
//! The choice is that of `k_plan`, which is asked of contexts that save by their self-parallelism alone what these save with the team.
#![tactic(auto)]

pub mod laws;
mod plan;
mod recast;
mod saving;
mod team;

pub use plan::{ThreadedPick, ThreadedPlan, threaded_plan};
pub use saving::{passes, threaded_saving};
pub use team::Team;
