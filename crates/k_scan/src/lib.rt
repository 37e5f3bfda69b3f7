//! Reading texts from the left: each call takes one piece off the front of a text, or says that no such piece stands there.
#![tactic(auto)]

// What each call gives back of what was spelled.
pub mod laws;
mod names;
mod numbers;
mod signs;
mod words;

pub use names::name;
pub use numbers::number;
pub use signs::signed;
pub use words::word;
