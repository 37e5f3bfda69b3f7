//! What uses of macros are replaced by, by public calls. There is nothing here but tests: in a crate of their own they
//! prove no other crate a second time.
#![tactic(auto)]

#[cfg(test)]
mod tests;
