//! Laws of contexts, rows and dictionaries, by which each is known without the recursion that makes it.
#![tactic(auto)]

pub mod laws;
