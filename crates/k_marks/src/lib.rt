//! Marks on a typed tree: which loops are counted, which reads are broken, which statements hold a leaving
//! jump.
#![tactic(auto)]

mod actions;
mod conditions;
mod flags;
mod found;
mod known;
mod loops;
mod marking;
mod notes;
mod statements;

pub use k_marks_meaning::Marks;
pub use marking::mark;
