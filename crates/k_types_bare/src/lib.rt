//! Typing makes no numbers: what a source comes to item by item has none, so that numbering it keeps all else. The
//! lemmas stand on the rules alone, beside the code that types.
#![tactic(auto)]

pub mod laws;
