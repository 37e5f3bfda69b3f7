//! The tokens of a source: directives are obeyed piece by piece, macros are replaced, and neighbouring strings are joined.
#![tactic(auto)]

mod fault;
mod joined;
pub mod laws;
mod lines;
mod pragmas;
mod source;
mod tokens;

pub use fault::LexFault;
pub use pragmas::pragma_lines;
pub use source::lex;
