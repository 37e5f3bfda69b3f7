//! Where a machine stands in a run of flat code, and what each instruction makes of that: the laws. Their statements stand in specs/.
#![tactic(auto)]

pub mod laws;
