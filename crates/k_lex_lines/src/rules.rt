//! What is laid down for every source.

use k_lex_conditions::Known;
use k_lex_expansion::{Macro, Spelling};
use k_num::Seq;

/// How many tokens there are, and how many bytes spell them.
#[derive(Clone, Copy, Debug, PartialEq, Eq)]
pub struct Sizes {
    pub tokens: usize,
    pub bytes: usize,
}

/// How much may be made, and how many tokens, spelled with how many bytes, there may be.
#[derive(Clone, Copy, Debug, PartialEq, Eq)]
pub struct Limits {
    pub made: usize,
    pub tokens: usize,
    pub bytes: usize,
}

/// How much is made, and how many tokens there are.
#[derive(Clone, Copy, Debug, PartialEq, Eq)]
pub struct Count {
    pub made: usize,
    pub sizes: Sizes,
}

/// A header: its name with its brackets, and its macros.
#[derive(Drop)]
pub struct Header {
    pub name: Spelling,
    pub macros: Seq<Macro>,
}

/// Limits, headers, and names that are known without one, with their values.
#[derive(Drop)]
pub struct Rules {
    pub limits: Limits,
    pub headers: Seq<Header>,
    pub names: Seq<Known>,
}
