//! The shadow of registers: one row of times for each absolute register number.
#![tactic(auto)]

mod shadow_regs;

pub use shadow_regs::ShadowRegs;
