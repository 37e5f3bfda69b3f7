//! A run of valid code from which main returned is one instance, with all others within it; so the dictionary of its tree meets the rules of a profile: the
//! laws. Their statements stand in specs/.
#![tactic(auto)]

pub mod laws;
