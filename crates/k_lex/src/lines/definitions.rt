//! `#define`: the bodies of new macros, and of known ones.
ghost use Rattle.std.specs.Prelude.{◌≡◌, ◌<◌, [], ◌∷◌, length, Ok, IsTrue, OnOk};
ghost use Rattle.k_lex_pieces.specs.Bytes as bytes;
ghost use Rattle.k_lex_macros.specs.Macros as macros;
ghost use Rattle.k_lex.specs.Lines as spec;
ghost use Rattle.k_lex.specs.Shown.{shown, Sound, IsReadable};
ghost use Rattle.k_lex_pieces.specs.Outcome.{Gives};

use super::{Again, Mode, State};
use crate::tokens::{refusal, token_of};
use k_lex_macros::copies::copy_of_bytes;
use k_lex_macros::macros::{Lexeme, is_named};
use k_lex_pieces::fault::{Refusal, Stop};
use k_lex_pieces::pieces::Piece;
use k_lex_pieces::words::word_of;
use k_num::{Place, Seq};
use k_tree::TokenKind;
use std::alloc::Global;
use std::mem;

/// The name that a `#define` gives.
fn named(alloc: Global, state: &mut State, place: Place, spelling: &[u8]) -> Result<(), Stop>
    requires { Sound state.old }
    ensures gives { Gives (λ _. shown state.new) result (spec.named place spelling.now (macros.find (shown state.old).macros spelling.now) (shown state.old)) }
    ensures sound { OnOk result (Sound state.new) }
{
    match state.macros.find(spelling) {
        Some(number) => {
            state.mode = Mode::Again(Again {
                name: place,
                number,
                at: 0,
            });
            Ok(())
        }
        None => {
            if state.macros.mentions(spelling) {
                return Err(refusal(Refusal::MacroOrder, place));
            }
            state.name = copy_of_bytes(alloc, spelling)?;
            state.body = Seq::new(alloc);
            state.mode = Mode::Body(place);
            Ok(())
        }
    }
}

/// Whether an opening parenthesis stands at the front of the text.
fn begins_parameters(text: &[u8]) -> bool
    ensures { result ≡ bytes.begins (40 ∷ []) text.now }
{
    match text {
        [b'(', ..] => true,
        _ => false,
    }
}

pub fn in_define(
    alloc: Global,
    state: &mut State,
    hash: Place,
    place: Place,
    spelling: &[u8],
    rest: &[u8],
    piece: Piece,
) -> Result<(), Stop>
    requires { Sound state.old }
    ensures gives { Gives (λ _. shown state.new) result (spec.in_define hash place spelling.now rest.now piece (shown state.old)) }
    ensures sound { OnOk result (Sound state.new) }
{
    match piece {
        Piece::Blank | Piece::Comment => Ok(()),
        Piece::Name => {
            if word_of(spelling).is_some() || begins_parameters(rest) {
                return Err(refusal(Refusal::BadDirective, hash));
            }
            named(alloc, state, place, spelling)
        }
        _ => Err(refusal(Refusal::BadDirective, hash)),
    }
}

/// One token more of the body of a new macro.
fn body_token(
    alloc: Global,
    state: &mut State,
    at: Place,
    place: Place,
    spelling: &[u8],
    piece: Piece,
) -> Result<(), Stop>
    requires sound { Sound state.old }
    requires readable { IsReadable place spelling.now piece }
    ensures gives { Gives (λ _. shown state.new) result (spec.body_token at place spelling.now piece (shown state.old)) }
    ensures sound { OnOk result (Sound state.new) }
{
    let what = token_of(alloc, place, spelling, piece)?;
    if is_named(state.name.as_slice(), &what) {
        return Err(refusal(Refusal::MacroOrder, at));
    }
    state.body.push(Lexeme {
        what,
        size: spelling.len(),
    })?;
    Ok(())
}

/// The end of the body of a new macro.
fn end_body(alloc: Global, state: &mut State) -> Result<(), Stop>
    requires { Sound state.old }
    ensures gives { Gives (λ _. shown state.new) result (Ok (spec.end_body (shown state.old))) }
    ensures sound { OnOk result (Sound state.new) }
{
    let name = mem::replace(&mut state.name, Seq::new(alloc));
    let body = mem::replace(&mut state.body, Seq::new(alloc));
    state.macros.define(alloc, name, body)?;
    state.mode = Mode::Start;
    Ok(())
}

pub fn in_body(
    alloc: Global,
    state: &mut State,
    at: Place,
    place: Place,
    spelling: &[u8],
    piece: Piece,
) -> Result<(), Stop>
    requires sound { Sound state.old }
    requires readable { IsReadable place spelling.now piece }
    ensures gives { Gives (λ _. shown state.new) result (spec.in_body at place spelling.now piece (shown state.old)) }
    ensures sound { OnOk result (Sound state.new) }
{
    match piece {
        Piece::Blank | Piece::Comment => Ok(()),
        Piece::Newline => end_body(alloc, state),
        _ => body_token(alloc, state, at, place, spelling, piece),
    }
}

/// Whether the token stands at this place of the body.
fn stands_at(body: &[Lexeme], at: usize, what: &TokenKind) -> bool
    ensures found { result ≡ macros.stands_at body.now at what.now }
    ensures within { IsTrue result → at < length body.now }
{
    if at < body.len() {
        body[at].what == *what
    } else {
        false
    }
}

/// One token more of the body of a known macro.
fn again_token(
    alloc: Global,
    state: &mut State,
    again: Again,
    place: Place,
    spelling: &[u8],
    piece: Piece,
) -> Result<(), Stop>
    requires sound { Sound state.old }
    requires readable { IsReadable place spelling.now piece }
    ensures gives { Gives (λ _. shown state.new) result (spec.again_token again.name again.number again.at place spelling.now piece (shown state.old)) }
    ensures sound { OnOk result (Sound state.new) }
{
    let what = token_of(alloc, place, spelling, piece)?;
    if !stands_at(state.macros.body_at(again.number), again.at, &what) {
        return Err(refusal(Refusal::MacroAgain, again.name));
    }
    state.mode = Mode::Again(Again {
        name: again.name,
        number: again.number,
        at: again.at + 1,
    });
    Ok(())
}

pub fn in_again(
    alloc: Global,
    state: &mut State,
    again: Again,
    place: Place,
    spelling: &[u8],
    piece: Piece,
) -> Result<(), Stop>
    requires sound { Sound state.old }
    requires readable { IsReadable place spelling.now piece }
    ensures gives { Gives (λ _. shown state.new) result (spec.in_again again.name again.number again.at place spelling.now piece (shown state.old)) }
    ensures sound { OnOk result (Sound state.new) }
{
    match piece {
        Piece::Blank | Piece::Comment => Ok(()),
        Piece::Newline => {
            if state.macros.body_at(again.number).len() != again.at {
                return Err(refusal(Refusal::MacroAgain, again.name));
            }
            state.mode = Mode::Start;
            Ok(())
        }
        _ => again_token(alloc, state, again, place, spelling, piece),
    }
}
