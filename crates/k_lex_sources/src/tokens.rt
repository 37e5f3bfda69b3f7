//! What is wrong with a piece as a token.
ghost use Rattle.std.specs.Prelude.{◌≡◌, ◌+◌, ◌^◌, ◌<◌, drop, length, IfOk};
ghost use Rattle.k_lex.specs.Lines.{token_of};
ghost use Rattle.k_lex.specs.Tokens.{first_place};
ghost use Rattle.k_lex_sources.specs.Rows as spec;

use k_lex_pieces::fault::{Fault, Refusal, Stop};
use k_lex_pieces::literals::{character, content, inside};
use k_lex_pieces::numbers::number_of;
use k_lex_pieces::pieces::Piece;
use k_num::{NoMemory, Place};
use std::alloc::Global;

/// The place of the first of some bytes.
pub fn front(places: &[Place]) -> Place
    ensures { result ≡ spec.front places.now }
{
    match places.split_first() {
        None => Place { line: 1, column: 1 },
        Some((place, _)) => *place,
    }
}

/// The places without the first n.
pub fn without(places: &[Place], n: usize) -> &[Place]
    ensures { result.now ≡ drop n places.now }
{
    if n > places.len() {
        return &[];
    }
    let (_, back) = places.split_at(n);
    back
}

/// The fault at the first byte.
fn at_first(what: Refusal) -> Option<Fault>
    ensures { result ≡ Some (record { what = what; place = first_place }) }
{
    Some(Fault {
        what,
        place: Place { line: 1, column: 1 },
    })
}

/// What is wrong with a number.
fn fault_in_number(spelling: &[u8]) -> Option<Fault>
    ensures { result ≡ spec.faulty (token_of first_place spelling.now Piece.Number) }
{
    match number_of(spelling) {
        Some(_) => None,
        None => at_first(Refusal::BadNumber),
    }
}

/// What is wrong in a character constant.
fn fault_in_character(spelling: &[u8]) -> Option<Fault>
    ensures { result ≡ spec.faulty (token_of first_place spelling.now Piece.Character) }
{
    match character(Place { line: 1, column: 2 }, inside(spelling)) {
        Ok(_) => None,
        Err(fault) => Some(fault),
    }
}

/// What is wrong in a string.
fn fault_in_string(alloc: Global, spelling: &[u8]) -> Result<Option<Fault>, NoMemory>
    requires { length spelling.now < 2 ^ 31 }
    ensures { IfOk result (λ fault. fault ≡ spec.faulty (token_of first_place spelling.now Piece.Str)) }
{
    match content(alloc, Place { line: 1, column: 2 }, inside(spelling)) {
        Ok(_) => Ok(None),
        Err(Stop::Memory) => Err(NoMemory),
        Err(Stop::Refused(fault)) => Ok(Some(fault)),
    }
}

/// What is wrong with a piece as a token, where it stands first in a source.
fn fault_in(alloc: Global, spelling: &[u8], piece: Piece) -> Result<Option<Fault>, NoMemory>
    requires { length spelling.now < 2 ^ 31 }
    ensures { IfOk result (λ fault. fault ≡ spec.faulty (token_of first_place spelling.now piece)) }
{
    match piece {
        Piece::Name | Piece::Mark(_) => Ok(None),
        Piece::Number => Ok(fault_in_number(spelling)),
        Piece::Character => Ok(fault_in_character(spelling)),
        Piece::Str => fault_in_string(alloc, spelling),
        Piece::OpenComment => Ok(at_first(Refusal::OpenComment)),
        Piece::OpenLiteral => Ok(at_first(Refusal::OpenLiteral)),
        Piece::Blank | Piece::Newline | Piece::Comment | Piece::Header | Piece::Unknown => {
            Ok(at_first(Refusal::BadByte))
        }
    }
}

/// What is wrong with a piece as a token, where its bytes have these places.
pub fn wrong(
    alloc: Global,
    spelling: &[u8],
    piece: Piece,
    places: &[Place],
) -> Result<Option<Fault>, NoMemory>
    requires { length spelling.now < 2 ^ 31 }
    ensures { IfOk result (λ fault. fault ≡ spec.wrong spelling.now piece places.now) }
{
    match fault_in(alloc, spelling, piece)? {
        None => Ok(None),
        Some(fault) => Ok(Some(Fault {
            what: fault.what,
            place: front(without(places, (fault.place.column as usize).saturating_sub(1))),
        })),
    }
}
