//! Copies of tokens.
ghost use Rattle.std.specs.Prelude.{◌≡◌, IfOk};

use k_num::{NoMemory, Seq, Text};
use k_tree::TokenKind;
use std::alloc::Global;

/// A copy of the bytes.
pub fn copy_of_bytes(alloc: Global, bytes: &[u8]) -> Result<Seq<u8>, NoMemory>
    ensures { IfOk result (λ copy. copy ≡ bytes.now) }
{
    let mut copy = Seq::new(alloc);
    for b in bytes {
        copy.push(*b)?;
    }
    Ok(copy)
}

/// A copy of the token's kind and value.
pub fn copy_of(alloc: Global, what: &TokenKind) -> Result<TokenKind, NoMemory>
    ensures { IfOk result (λ copy. copy ≡ what.now) }
{
    match what {
        TokenKind::Name(name) => Ok(TokenKind::Name(Text::copy_of(alloc, name.as_str())?)),
        TokenKind::Word(word) => Ok(TokenKind::Word(*word)),
        TokenKind::Number(kind, value) => Ok(TokenKind::Number(*kind, *value)),
        TokenKind::Char(value) => Ok(TokenKind::Char(*value)),
        TokenKind::Str(bytes) => Ok(TokenKind::Str(copy_of_bytes(alloc, bytes.as_slice())?)),
        TokenKind::Mark(mark) => Ok(TokenKind::Mark(*mark)),
        TokenKind::End => Ok(TokenKind::End),
    }
}
