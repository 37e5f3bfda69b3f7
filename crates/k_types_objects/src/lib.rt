//! Declared objects, as far as no expression is judged for them: what specifiers say, the values of constant expressions, the sizes that
//! dimensions make, the types of declarators and the values with which file objects begin (C17 6.6, 6.7).
#![tactic(auto)]

mod constants;
mod extent;
mod file_values;
mod object_type;
mod size;
mod specifier;

pub use constants::constant;
pub use extent::room;
pub use file_values::first_values;
pub use object_type::{copied_type, declared_type, has_type, is_fixed};
pub use size::{Size, Sizes, object_sizes, param_sizes, sizes_or_known};
pub use specifier::Saying;
