//! What is proved of each command of `kremlin` in one sentence: what it writes, and with which status it ends, where nothing goes wrong outside and memory suffices.
#![tactic(auto)]

pub mod laws;
