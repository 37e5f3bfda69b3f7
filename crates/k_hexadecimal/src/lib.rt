//! The values of hexadecimal floating constants (C17 6.4.4.2): the exact number, rounded once to its precision. No command uses them yet.
//!
//! A text may have any number of digits; its first 15 that count are kept, and of the others only whether one is not 0. None takes memory.
#![tactic(auto)]

mod hexadecimal;

pub use hexadecimal::hexadecimal_constant;
