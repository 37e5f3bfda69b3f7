//! Marks in Wide on a typed tree: what its expressions do with scalars and functions, and the steps of variables.
#![tactic(auto)]

mod actions;
mod choices;
mod comparisons;
mod notes;
mod signs;
mod steps;

pub use actions::note_action;
pub use choices::note_kept;
pub use notes::{note_declared, note_expr, note_head, note_option};
pub use signs::are_same;
pub use steps::{Stepping, option_step, option_test_step, step_in_test, step_of};
