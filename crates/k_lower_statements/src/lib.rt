//! The code of declarations and of statements without parts, emitted instruction by instruction.
#![tactic(auto)]

mod declaration;
mod site;
mod statement;

pub use declaration::{declare_all, drop_value, start, temporary};
pub use site::Site;
pub use statement::{break_out, declare, evaluate, go_on, leave};
