//! One instruction of flat code over the parts of a machine: its values, the times of all locations, and the summaries of instances.
#![tactic(auto)]

mod calls;
mod calls_surely;
mod group;
mod instances;
mod instructions;
mod joined;
mod operation;
mod parts;
mod ran;
mod returns;
mod returns_surely;
mod silent;
mod start;
mod step;
mod sure;
mod turn;

pub use parts::Parts;
pub use ran::Ran;
pub use turn::Turn;
