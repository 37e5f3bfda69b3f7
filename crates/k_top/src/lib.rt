//! The top call: from the words of a command line to what a program writes and the report of its profile.
#![tactic(auto)]

mod asked;
mod output;
mod top;

pub use top::kremlin;
