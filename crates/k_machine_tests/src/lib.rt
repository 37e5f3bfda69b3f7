//! Flat code and the shadows: programs that are valid or not, and each call of a shadow, by public calls. There is nothing here but
//! tests: in a crate of their own they prove no other crate a second time.
#![tactic(auto)]

#[cfg(test)]
mod tests;
