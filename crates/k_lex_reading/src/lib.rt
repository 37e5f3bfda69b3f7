//! The reading of a source line by line (C17 6.10): what a reader tells that is given lines one by one, with the laws by
//! which its answers are those of the definition. The reader itself does not stand here yet.
#![tactic(auto)]

mod fault;
mod headers;
mod text;

pub use fault::ReadFault;
pub use headers::Inclusion;
pub use text::Purpose;
