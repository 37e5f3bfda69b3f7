//! Laws of the tokens of a source, beside those of `k_lex`: what each literal stands for.
#![tactic(auto)]

pub mod laws;
