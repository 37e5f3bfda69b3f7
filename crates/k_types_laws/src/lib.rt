//! Laws of typing: dimensions, types of declarators, initialisers and parameters as relations, in the standard's terms (C17 6.7), which
//! judging them agrees with.
#![tactic(auto)]

pub mod laws;
