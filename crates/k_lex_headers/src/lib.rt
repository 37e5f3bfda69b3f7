//! The macros of the headers (C17 7), as texts of `#define` lines: a header has those of some of these texts. No command
//! uses them yet.
#![tactic(auto)]

pub mod texts;
