//! `#include`: a header's name, and what stands behind it.
ghost use Rattle.std.specs.Prelude.{◌≡◌, ◌||◌, [], ◌∷◌, OnOk};
ghost use Rattle.k_lex_pieces.specs.Bytes as bytes;
ghost use Rattle.k_lex.specs.Lines as spec;
ghost use Rattle.k_lex.specs.Shown.{shown, Sound};
ghost use Rattle.k_lex_pieces.specs.Outcome.{Gives};

use super::{Directive, Mode, State};
use crate::tokens::refusal;
use k_lex_macros::headers::{Header, add_new, breaks_order, changes, header_of, macros_of};
use k_lex_pieces::fault::{Refusal, Stop};
use k_lex_pieces::pieces::Piece;
use k_num::Place;
use std::alloc::Global;

/// Whether the text begins with `<` or a quote.
fn begins_header(text: &[u8]) -> bool
    ensures { result ≡ (bytes.begins (60 ∷ []) text.now || bytes.begins (34 ∷ []) text.now) }
{
    match text {
        [b'<' | b'"', ..] => true,
        _ => false,
    }
}

pub fn in_include(
    state: &mut State,
    hash: Place,
    place: Place,
    spelling: &[u8],
    piece: Piece,
) -> Result<(), Stop>
    requires { Sound state.old }
    ensures gives { Gives (λ _. shown state.new) result (spec.in_include hash place spelling.now piece (shown state.old)) }
    ensures sound { OnOk result (Sound state.new) }
{
    match piece {
        Piece::Blank | Piece::Comment => Ok(()),
        Piece::Header => {
            state.mode = Mode::Header(Directive {
                hash,
                name: place,
                header: header_of(spelling),
            });
            Ok(())
        }
        _ => {
            if begins_header(spelling) {
                Err(refusal(Refusal::UnknownHeader, place))
            } else {
                Err(refusal(Refusal::BadDirective, hash))
            }
        }
    }
}

/// The macros of a header come in.
fn include(alloc: Global, state: &mut State, at: Place, header: Option<Header>) -> Result<(), Stop>
    requires { Sound state.old }
    ensures gives { Gives (λ _. shown state.new) result (spec.include at header (shown state.old)) }
    ensures sound { OnOk result (Sound state.new) }
{
    match header {
        None => Err(refusal(Refusal::UnknownHeader, at)),
        Some(header) => {
            let list = macros_of(alloc, header)?;
            if breaks_order(&state.macros, list.as_slice()) {
                return Err(refusal(Refusal::MacroOrder, at));
            }
            if changes(&state.macros, list.as_slice()) {
                return Err(refusal(Refusal::MacroAgain, at));
            }
            add_new(alloc, list.as_slice(), &mut state.macros)?;
            Ok(())
        }
    }
}

/// What stands behind a header's name.
pub fn in_header(
    alloc: Global,
    state: &mut State,
    directive: Directive,
    place: Place,
    piece: Piece,
) -> Result<(), Stop>
    requires { Sound state.old }
    ensures gives { Gives (λ _. shown state.new) result (spec.in_header directive.hash directive.name directive.header place piece (shown state.old)) }
    ensures sound { OnOk result (Sound state.new) }
{
    match piece {
        Piece::Blank | Piece::Comment => Ok(()),
        Piece::Newline => {
            include(alloc, state, directive.name, directive.header)?;
            state.mode = Mode::Start;
            Ok(())
        }
        Piece::OpenComment => {
            include(alloc, state, directive.name, directive.header)?;
            Err(refusal(Refusal::OpenComment, place))
        }
        Piece::OpenLiteral => {
            include(alloc, state, directive.name, directive.header)?;
            Err(refusal(Refusal::OpenLiteral, place))
        }
        Piece::Unknown => {
            include(alloc, state, directive.name, directive.header)?;
            Err(refusal(Refusal::BadByte, place))
        }
        _ => Err(refusal(Refusal::BadDirective, directive.hash)),
    }
}
