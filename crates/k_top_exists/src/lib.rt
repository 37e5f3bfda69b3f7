//! The laws that each question has an answer: one for every relation of the layers below, and one for the whole answer to the words of a command line.
#![tactic(auto)]

pub mod laws;
