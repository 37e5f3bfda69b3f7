//! What a typed tree says of its parts, for the code that it is lowered to: kinds, scales and classes of operations, marks, the
//! numbers that an array begins with, and the regions of functions and loops.
#![tactic(auto)]

mod regions;
mod types;
mod values;

pub use regions::{function_region, loop_region};
pub use types::{class_of, flag, kind_of, kind_or_int, scale_of};
pub use values::values_of;
