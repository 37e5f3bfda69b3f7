//! Tokens by their spellings.

use crate::shared::Shared;
use k_num::Seq;

/// The bytes that spell a token.
pub type Spelling = Shared<Seq<u8>>;

/// A set of names.
pub type Names = Shared<Seq<Spelling>>;

/// A token of a source, or of a macro's body.
#[derive(Drop)]
pub struct Spelled {
    pub spelling: Spelling,
    /// Whether blanks, newlines or comments stand before it.
    pub spaced: bool,
}

/// A token of a list that is expanded.
#[derive(Drop)]
pub struct Listed {
    pub spelling: Spelling,
    pub spaced: bool,
    /// The names that are not replaced any more, where this token is one of them.
    pub hidden: Names,
}
