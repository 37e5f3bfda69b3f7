//! What the tree of syntax tells of a source's functions and loops that its typed tree does not keep: the names of variables, and which loops count a
//! variable that is written bare.
#![tactic(auto)]

mod heads;
mod names;
mod source;
mod statements;
mod told;

pub use source::written;
pub use told::Written;
