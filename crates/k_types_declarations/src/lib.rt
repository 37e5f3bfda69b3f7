//! The typing of declarations of objects and variables (C17 6.7): the sizes that dimensions have, with what an
//! object begins, and what is known behind a declarator.
#![tactic(auto)]

mod alone;
mod braces;
mod declarator;
mod dimension;
mod initialiser;
mod known;
mod local;
mod object;

pub use dimension::dimensions;
pub use known::{Known, Variable};
pub use local::{declare, declare_all};
pub use object::{declare_object, declare_objects};
