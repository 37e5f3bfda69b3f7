//! The summaries of instances: the work of the open ones, their closed children, and the dictionary so far.
#![tactic(auto)]

mod closing;
mod level;
mod summaries;

pub use summaries::Summaries;
