//! What a piece does outside of directives: tokens, and the uses of macros.
ghost use Rattle.std.specs.Prelude.{◌≡◌, ◌<◌, [], ◌∷◌, OnOk};
ghost use Rattle.k_lex_macros.specs.Macros as macros;
ghost use Rattle.k_lex_macros.specs.Table.{count_of};
ghost use Rattle.k_lex.specs.Lines as spec;
ghost use Rattle.k_lex.specs.Shown.{shown, Sound, IsReadable};
ghost use Rattle.k_lex_pieces.specs.Outcome.{Gives};

use super::{Mode, State};
use crate::tokens::{refusal, token_of};
use k_lex_pieces::fault::{Refusal, Stop};
use k_lex_pieces::pieces::Piece;
use k_lex_pieces::words::is_same;
use k_num::Place;
use k_tree::{Token, TokenKind};
use std::alloc::Global;

fn has_room(state: &State, count: usize, bytes: usize) -> bool
    requires { Sound state.now }
    ensures { result ≡ spec.has_room (shown state.now) count bytes }
{
    count <= state.limits.tokens - state.tokens.len()
        && bytes <= state.limits.spelling - state.spelled
}

/// Adds one token of a line.
fn add_one(state: &mut State, place: Place, what: TokenKind, size: usize) -> Result<(), Stop>
    requires { Sound state.old }
    ensures gives { Gives (λ _. shown state.new) result (spec.add place (macros.lexeme what size ∷ []) (shown state.old)) }
    ensures sound { OnOk result (Sound state.new) }
{
    if !has_room(state, 1, size) {
        return Err(refusal(Refusal::TokensMany, place));
    }
    state.tokens.push(Token { what, place })?;
    state.spelled += size;
    state.mode = Mode::Middle;
    Ok(())
}

/// Adds the tokens of the macro of this number.
fn add_macro(alloc: Global, state: &mut State, place: Place, number: usize) -> Result<(), Stop>
    requires sound { Sound state.old }
    requires there { number < count_of state.old.macros }
    ensures gives { Gives (λ _. shown state.new) result (spec.add place (macros.full_at (macros.fulls (shown state.old).macros) number) (shown state.old)) }
    ensures sound { OnOk result (Sound state.new) }
{
    let (count, bytes) = state.macros.size_of(number);
    if !has_room(state, count, bytes) {
        return Err(refusal(Refusal::TokensMany, place));
    }
    state
        .macros
        .write_out(alloc, place, number, &mut state.tokens)?;
    state.spelled += bytes;
    state.mode = Mode::Middle;
    Ok(())
}

/// Adds what a token of a line is replaced by.
fn add(
    alloc: Global,
    state: &mut State,
    place: Place,
    what: TokenKind,
    size: usize,
) -> Result<(), Stop>
    requires { Sound state.old }
    ensures gives { Gives (λ _. shown state.new) result (spec.add place (macros.replaced (shown state.old).macros (macros.lexeme what size)) (shown state.old)) }
    ensures sound { OnOk result (Sound state.new) }
{
    match state.macros.used(&what) {
        None => add_one(state, place, what, size),
        Some(number) => add_macro(alloc, state, place, number),
    }
}

fn is_literal(piece: Piece) -> bool
    ensures { result ≡ spec.is_literal piece }
{
    matches!(piece, Piece::Character | Piece::Str)
}

fn token_in_text(
    alloc: Global,
    state: &mut State,
    place: Place,
    spelling: &[u8],
    piece: Piece,
) -> Result<(), Stop>
    requires sound { Sound state.old }
    requires readable { IsReadable place spelling.now piece }
    ensures gives { Gives (λ _. shown state.new) result (spec.token_in_text place spelling.now piece (shown state.old)) }
    ensures sound { OnOk result (Sound state.new) }
{
    if is_literal(piece) && !has_room(state, 1, spelling.len()) {
        return Err(refusal(Refusal::TokensMany, place));
    }
    let what = token_of(alloc, place, spelling, piece)?;
    add(alloc, state, place, what, spelling.len())
}

/// A piece outside of directives.
pub fn in_text(
    alloc: Global,
    state: &mut State,
    place: Place,
    spelling: &[u8],
    piece: Piece,
) -> Result<(), Stop>
    requires sound { Sound state.old }
    requires readable { IsReadable place spelling.now piece }
    ensures gives { Gives (λ _. shown state.new) result (spec.in_text place spelling.now piece (shown state.old)) }
    ensures sound { OnOk result (Sound state.new) }
{
    match piece {
        Piece::Blank | Piece::Comment => Ok(()),
        Piece::Newline => {
            state.mode = Mode::Start;
            Ok(())
        }
        _ => token_in_text(alloc, state, place, spelling, piece),
    }
}

/// A piece where the line has had blanks and comments alone.
pub fn in_start(
    alloc: Global,
    state: &mut State,
    place: Place,
    spelling: &[u8],
    piece: Piece,
) -> Result<(), Stop>
    requires sound { Sound state.old }
    requires readable { IsReadable place spelling.now piece }
    ensures gives { Gives (λ _. shown state.new) result (spec.in_start place spelling.now piece (shown state.old)) }
    ensures sound { OnOk result (Sound state.new) }
{
    if is_same(spelling, b"#") {
        state.mode = Mode::Hash(place);
        return Ok(());
    }
    in_text(alloc, state, place, spelling, piece)
}
