//! Real numbers: the arithmetic of `float` and `double`, their conversions, the codes by which they are held, and texts of so many digits (C17
//! 6.2.5, 6.3.1, 7.21.6.1, Annex F). No command uses them yet.
//!
//! The arithmetic is that of IEEE 754, rounded to nearest, ties to even, by the processor's own operations, with one NaN that has no sign and no
//! payload. Only texts take memory.
#![tactic(auto)]

mod arithmetic;
mod codes;
mod constants;
mod conversions;
mod digits;
mod fixed;
mod general;
pub mod laws;
mod precision;
mod scientific;

pub use arithmetic::{real_binary, real_unary, truth};
pub use codes::{code_of, real_of_code};
pub use constants::decimal_constant;
pub use conversions::{to_precision, to_real, to_whole};
pub use fixed::fixed_text;
pub use general::general_text;
pub use precision::Precision;
pub use scientific::scientific_text;
