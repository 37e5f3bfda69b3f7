//! Neighbouring strings are one token, and the last token is the end.
ghost use Rattle.std.specs.Prelude.{◌≡◌, ◌^◌, ◌<◌, [], ◌∷◌, ◌++◌, List, length, IfOk, OnOk};
ghost use Rattle.k_lex.specs.Tokens as spec;
ghost use Rattle.k_lex_joining.specs.Ending as ending;
ghost use Rattle.k_lex_joining.specs.Held.{held_tokens};
ghost use Rattle.k_tree.specs.declared.tokens.Token.{Token};

use k_lex_macros::copies::{copy_of, copy_of_bytes};
use k_lex_pieces::bytes::behind;
use k_num::{NoMemory, Place, Seq};
use k_tree::{Token, TokenKind};
use std::alloc::Global;

/// A string that the next token may go on with.
#[derive(Drop)]
struct Held {
    bytes: Seq<u8>,
    place: Place,
}

/// Adds bytes at the end of a string.
fn append(string: &mut Seq<u8>, more: &[u8]) -> Result<(), NoMemory>
    ensures { OnOk result (string.new ≡ string.old ++ more.now) }
{
    for b in more {
        string.push(*b)?;
    }
    Ok(())
}

/// Adds the string, if there is one, to the tokens.
fn flush(held: Option<Held>, out: &mut Seq<Token>) -> Result<(), NoMemory>
    ensures { OnOk result (out.new ≡ out.old ++ held_tokens held) }
{
    match held {
        None => Ok(()),
        Some(Held { bytes, place }) => out.push(Token {
            what: TokenKind::Str(bytes),
            place,
        }),
    }
}

/// A string goes on with another, or begins.
fn join(alloc: Global, held: Option<Held>, more: &[u8], place: Place) -> Result<Held, NoMemory>
    ensures { IfOk result (λ new. (rest : List Token) → spec.joined (held_tokens (Some new) ++ rest) ≡ spec.joined (held_tokens held ++ (record { what = TokenKind.Str more.now; place = place }) ∷ rest)) }
{
    match held {
        None => Ok(Held {
            bytes: copy_of_bytes(alloc, more)?,
            place,
        }),
        Some(mut held) => {
            append(&mut held.bytes, more)?;
            Ok(held)
        }
    }
}

/// Takes one token more. The string that it leaves may go on.
fn take_token(
    alloc: Global,
    out: &mut Seq<Token>,
    held: Option<Held>,
    token: &Token,
) -> Result<Option<Held>, NoMemory>
    ensures { IfOk result (λ new. (rest : List Token) → out.new ++ spec.joined (held_tokens new ++ rest) ≡ out.old ++ spec.joined (held_tokens held ++ token.now ∷ rest)) }
{
    match &token.what {
        TokenKind::Str(bytes) => Ok(Some(join(alloc, held, bytes.as_slice(), token.place)?)),
        what => {
            flush(held, out)?;
            let what = copy_of(alloc, what)?;
            out.push(Token {
                what,
                place: token.place,
            })?;
            Ok(None)
        }
    }
}

/// The tokens with their neighbouring strings joined.
fn joined(alloc: Global, tokens: &[Token]) -> Result<Seq<Token>, NoMemory>
    ensures { IfOk result (λ list. list ≡ spec.joined tokens.now) }
{
    let mut out = Seq::new(alloc);
    let mut held = None;
    for token in tokens {
        held = take_token(alloc, &mut out, held, token)?;
    }
    flush(held, &mut out)?;
    Ok(out)
}

/// The tokens that were read from a source, with their neighbouring strings joined, and the end behind its last byte. The
/// caller has tested the length.
pub fn ended(alloc: Global, tokens: &[Token], source: &[u8]) -> Result<Seq<Token>, NoMemory>
    requires { length source.now < 2 ^ 31 }
    ensures { IfOk result (λ list. list ≡ ending.ended tokens.now source.now) }
{
    let mut out = joined(alloc, tokens)?;
    out.push(Token {
        what: TokenKind::End,
        place: behind(Place { line: 1, column: 1 }, source),
    })?;
    Ok(out)
}
