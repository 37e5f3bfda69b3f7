//! A source on its way to flat code, lent to a test: the trees that stand on that way are dropped here, so that no crate of tests has to prove how.
#![tactic(auto)]

mod source;

pub use source::{Reader, read_source};
