//! The tokens of a source (C17 6.4).
pub mod mark;
pub mod word;

use k_num::{Kind, Place, Seq, Text};
use mark::Mark;
use word::Word;

/// What a token is.
#[derive(Debug, PartialEq, Eq, Drop)]
pub enum TokenKind {
    /// An identifier that is no keyword.
    Name(Text),
    /// A keyword.
    Word(Word),
    /// An integer constant: its kind and its value.
    Number(Kind, u64),
    /// A character constant: its value, that of the byte as a signed number of 8 bits.
    Char(i32),
    /// A string, after its escapes were replaced and its neighbours joined; without an end mark.
    Str(Seq<u8>),
    /// A punctuator.
    Mark(Mark),
    /// The end of the source.
    End,
}

/// A token, and where it stands.
#[derive(Debug, PartialEq, Eq, Drop)]
pub struct Token {
    pub what: TokenKind,
    pub place: Place,
}
