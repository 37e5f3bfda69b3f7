//! What the statements of a typed tree do with scalars and functions in Wide, the jumps that lead out of them, and the last statement of a body.
#![tactic(auto)]

mod bodies;
mod statements;

pub use bodies::{jumps_out_of, last_of};
pub use statements::{note_stmt, note_stmts};
