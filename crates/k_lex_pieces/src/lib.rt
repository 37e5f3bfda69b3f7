//! The pieces of a source: names and keywords, numbers, literals, punctuators, comments and blanks, each the longest
//! at the front of the text, and what numbers and literals stand for.
#![tactic(auto)]

pub mod bytes;
pub mod fault;
pub mod literals;
mod marks;
pub mod numbers;
pub mod pieces;
mod scan;
pub mod splices;
pub mod words;
