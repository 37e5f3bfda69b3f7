//! Token lists read as trees of syntax: the whole grammar.
#![tactic(auto)]

pub mod fault;
pub mod laws;
mod parser;

pub use fault::ParseFault;
pub use parser::parse;
