//! What a program that typing accepts has for lowering: its flat code is valid, what it names is there, and its numbers are small. The statements
//! stand in specs/.
#![tactic(auto)]

pub mod laws;
