//! The end of a source's tokens (C17 5.1.1.2p1, phase 6): neighbouring strings are one token, and the last token is the
//! end, whatever reading gave the tokens. No command uses it yet.
#![tactic(auto)]

mod joining;
pub mod laws;

pub use joining::ended;
