//! The token that a piece is.
ghost use Rattle.std.specs.Prelude.{◌≡◌, ◌+◌, true, length, Ok, IfOk};
ghost use Rattle.k_lex_pieces.specs.Bytes as bytes;
ghost use Rattle.k_lex_pieces.specs.Pieces as pieces;
ghost use Rattle.k_lex.specs.Lines as spec;
ghost use Rattle.k_lex_pieces.specs.Numbers as numbers;
ghost use Rattle.k_lex_pieces.specs.Words as words;
ghost use Rattle.k_lex_pieces.specs.Outcome.{Gives};

use k_lex_pieces::bytes::after;
use k_lex_pieces::fault::{Fault, Refusal, Stop};
use k_lex_pieces::literals::{character, content, inside};
use k_lex_pieces::numbers::number_of;
use k_lex_pieces::pieces::Piece;
use k_lex_pieces::words::word_of;
use k_num::{NoMemory, Place, Text};
use k_tree::TokenKind;
use std::alloc::Global;

/// The refusal at this place.
pub fn refusal(what: Refusal, place: Place) -> Stop
    ensures { result ≡ Stop.Refused (record { what = what; place = place }) }
{
    Stop::Refused(Fault { what, place })
}

/// The text of a name.
fn name_of(alloc: Global, spelling: &[u8]) -> Result<Text, NoMemory>
    requires { pieces.is_name spelling.now ≡ true }
    ensures { IfOk result (λ name. name ≡ spelling.now) }
{
    match str::from_utf8(spelling) {
        Ok(text) => Text::copy_of(alloc, text),
        Err(_) => unreachable!(),
    }
}

fn name_token(alloc: Global, spelling: &[u8]) -> Result<TokenKind, Stop>
    requires { pieces.is_name spelling.now ≡ true }
    ensures { Gives (λ what. what) result (Ok (spec.name_token spelling.now (words.word_of spelling.now))) }
{
    match word_of(spelling) {
        Some(word) => Ok(TokenKind::Word(word)),
        None => Ok(TokenKind::Name(name_of(alloc, spelling)?)),
    }
}

fn number_token(place: Place, spelling: &[u8]) -> Result<TokenKind, Stop>
    ensures { Gives (λ what. what) result (spec.number_token place (numbers.number_of spelling.now)) }
{
    match number_of(spelling) {
        Some((kind, value)) => Ok(TokenKind::Number(kind, value)),
        None => Err(refusal(Refusal::BadNumber, place)),
    }
}

fn character_token(place: Place, spelling: &[u8]) -> Result<TokenKind, Stop>
    requires { bytes.HasRoom place (length spelling.now + 1) }
    ensures { Gives (λ what. what) result (spec.token_of place spelling.now Piece.Character) }
{
    Ok(TokenKind::Char(character(after(place, b'\''), inside(spelling))?))
}

fn string_token(alloc: Global, place: Place, spelling: &[u8]) -> Result<TokenKind, Stop>
    requires { bytes.HasRoom place (length spelling.now + 1) }
    ensures { Gives (λ what. what) result (spec.token_of place spelling.now Piece.Str) }
{
    Ok(TokenKind::Str(content(alloc, after(place, b'"'), inside(spelling))?))
}

/// The token that a piece is, or what is wrong with it.
pub fn token_of(
    alloc: Global,
    place: Place,
    spelling: &[u8],
    piece: Piece,
) -> Result<TokenKind, Stop>
    requires name { piece ≡ Piece.Name → pieces.is_name spelling.now ≡ true }
    requires room { bytes.HasRoom place (length spelling.now + 1) }
    ensures { Gives (λ what. what) result (spec.token_of place spelling.now piece) }
{
    match piece {
        Piece::Name => name_token(alloc, spelling),
        Piece::Number => number_token(place, spelling),
        Piece::Character => character_token(place, spelling),
        Piece::Str => string_token(alloc, place, spelling),
        Piece::Mark(mark) => Ok(TokenKind::Mark(mark)),
        Piece::OpenComment => Err(refusal(Refusal::OpenComment, place)),
        Piece::OpenLiteral => Err(refusal(Refusal::OpenLiteral, place)),
        Piece::Blank | Piece::Newline | Piece::Comment | Piece::Header | Piece::Unknown => {
            Err(refusal(Refusal::BadByte, place))
        }
    }
}
