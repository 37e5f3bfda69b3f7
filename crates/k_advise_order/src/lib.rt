//! Loops whose outcome depends on the order of their iterations though they carry no pair: `if (e < s) { s = e; n++; }`
//! reduces s by the least, whose reads are broken, and n by a sum, but how often n grows depends on which value comes
//! first. No command uses it yet.
#![tactic(auto)]

pub mod laws;
