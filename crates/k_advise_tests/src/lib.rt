//! What loops save with teams of threads, the plans and gains for them, and verdicts on loops, by numbers that were
//! computed by hand. There is nothing here but tests: in a crate of their own they prove no other crate a second time.
#![tactic(auto)]

#[cfg(test)]
mod tests;
