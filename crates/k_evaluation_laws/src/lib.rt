//! Laws of *Evaluation* on values: in each run of a source that typing accepts, variables, elements of objects and results of calls hold numbers that their
//! kinds hold.
#![tactic(auto)]

pub mod laws;
