//! The machine: runs flat code over a shadow of registers and one of elements, and keeps for each open instance its work, its critical path and its
//! closed children, and one dictionary, but no list of operations.
#![tactic(auto)]

mod decoded;
mod machine;
mod output;
mod profile;
mod running;

pub use k_hcpa_steps::Turn;
pub use machine::Machine;
pub use profile::{Profile, RunFault, Summary};
pub use running::{run_code, run_held};
