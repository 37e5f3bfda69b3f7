//! What each typed expression has of the strings and of the functions of its source: the bytes of each string and the pieces of each format are
//! those of a string of the source, and a call has a value exactly where its function has one. The definitions stand in specs/.
#![tactic(auto)]

pub mod laws;
