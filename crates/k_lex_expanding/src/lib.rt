//! The expansion of a list of tokens (C17 6.10.3.4), by a machine with a stack of the calls whose arguments are being
//! expanded. No command uses it yet.
#![tactic(auto)]

mod calls;
mod expansion;
mod first;
mod machine;
mod macros;
mod turn;

pub use expansion::{Expanded, expand};
