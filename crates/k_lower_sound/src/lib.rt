//! What a program that typing accepts has for the runs of its lowered statements: each function is sound, and main is there. The statement stands in specs/.
#![tactic(auto)]

pub mod laws;
