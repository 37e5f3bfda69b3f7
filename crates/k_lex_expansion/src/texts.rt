//! Strings of the spellings of tokens.
ghost use Rattle.std.specs.Prelude.{◌≡◌, [], ◌∷◌, ◌++◌, if◌then◌else◌, IfOk, OnOk};
ghost use Rattle.k_lex_expansion.specs.Texts as spec;

use crate::shared::Shared;
use crate::tokens::{Listed, Spelling};
use k_num::{NoMemory, Seq};
use std::alloc::Global;

/// Adds bytes, with a backslash before each quote and each backslash.
fn put_escaped(out: &mut Seq<u8>, bytes: &[u8]) -> Result<(), NoMemory>
    ensures { OnOk result (out.new ≡ out.old ++ spec.escaped bytes.now) }
{
    for b in bytes {
        if *b == b'"' || *b == b'\\' {
            out.push(b'\\')?;
        }
        out.push(*b)?;
    }
    Ok(())
}

/// Adds what a token behind another is in a string.
fn put_token(out: &mut Seq<u8>, token: &Listed) -> Result<(), NoMemory>
    ensures { OnOk result (out.new ≡ out.old ++ spec.text_behind token.now) }
{
    if token.spaced {
        out.push(b' ')?;
    }
    put_escaped(out, token.spelling.get().as_slice())
}

/// Adds what tokens behind another are in a string.
fn put_tokens(out: &mut Seq<u8>, tokens: &[Listed]) -> Result<(), NoMemory>
    ensures { OnOk result (out.new ≡ out.old ++ spec.texts_behind tokens.now) }
{
    for token in tokens {
        put_token(out, token)?;
    }
    Ok(())
}

/// Adds what tokens are in a string.
fn put_texts(out: &mut Seq<u8>, tokens: &[Listed]) -> Result<(), NoMemory>
    ensures { OnOk result (out.new ≡ out.old ++ spec.texts tokens.now) }
{
    match tokens.split_first() {
        None => Ok(()),
        Some((first, behind)) => {
            put_escaped(out, first.spelling.get().as_slice())?;
            put_tokens(out, behind)
        }
    }
}

/// The spelling of a string that has the spellings of these tokens.
pub fn string_of(alloc: Global, tokens: &[Listed]) -> Result<Spelling, NoMemory>
    ensures { IfOk result (λ text. text ≡ spec.string_of tokens.now) }
{
    let mut text = Seq::new(alloc);
    text.push(b'"')?;
    put_texts(&mut text, tokens)?;
    text.push(b'"')?;
    Shared::new(alloc, text)
}
