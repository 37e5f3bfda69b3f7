//! The regions of a source, which are its functions, its loops and their bodies in text order; and the law that a run enters no
//! others.
#![tactic(auto)]

pub mod laws;
mod loops;
mod source;

pub use loops::LoopAt;
pub use source::regions;
