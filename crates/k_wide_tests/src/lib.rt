//! Reductions and steps in Wide, of statements of a source. There is nothing here but tests: in a crate of their own they prove no other
//! crate a second time.
#![tactic(auto)]

#[cfg(test)]
mod tests;
