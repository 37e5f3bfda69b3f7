//! Flags, width and precision of `printf` (C17 7.21.6.1): which conversions a format may have, and the text of a number or a string in the shape that
//! a conversion gives it. No command uses them yet.
#![tactic(auto)]

mod accepted;
mod digits;
pub mod laws;
mod letters;
mod padding;
mod parts;
mod reading;
mod reals;
mod shape;
mod texts;

pub use reading::parse_conversion;
pub use shape::{Conversion, Length, Shape};
pub use texts::{shaped_string, shaped_text};
