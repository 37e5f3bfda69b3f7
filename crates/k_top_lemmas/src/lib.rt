//! What the parts of the call come to, and the lemmas by which that meets the definition of the whole answer.
#![tactic(auto)]

mod ending;
pub mod laws;
mod program;
mod running;

pub use ending::Ending;
pub use program::Program;
pub use running::Ready;
