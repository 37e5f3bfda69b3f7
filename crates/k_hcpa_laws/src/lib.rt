//! The times that a machine keeps are weights of heaviest paths: what each instruction of flat code but calls and returns does to them.
#![tactic(auto)]

pub mod laws;
