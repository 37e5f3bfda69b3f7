//! What lowering may rely on in the typed functions of a source: each number in a function names something that is there, jumps and calls
//! stand where they may, and a function takes few registers and instructions for its size. The definitions stand in specs/.
#![tactic(auto)]

pub mod laws;
