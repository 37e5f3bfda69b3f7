//! The lines of `#pragma` of a source.
ghost use Rattle.std.specs.Prelude.{◌≡◌, ◌≤◌, ◌++◌, length, IfOk, OnOk};
ghost use Rattle.k_lex.specs.PragmaLines as spec;

use crate::lines::{Mode, nothing_read, piece_in, turn};
use crate::source::{FIRST_PLACE, LIMITS};
use k_lex_pieces::bytes::behind;
use k_lex_pieces::fault::Stop;
use k_lex_pieces::pieces::Piece;
use k_lex_pieces::words::is_same;
use k_num::{NoMemory, Place};
use std::alloc::Global;

/// Notes the place of the `#` of a directive, where a piece makes it a `#pragma`.
fn note(mode: Mode, spelling: &[u8], piece: Piece, lines: &mut Vec<Place>) -> Result<(), NoMemory>
    ensures { OnOk result (lines.new.items ≡ lines.old.items ++ spec.pragma_by mode spelling.now piece) }
{
    match (mode, piece) {
        (Mode::Hash(hash), Piece::Name) => {
            if is_same(spelling, b"pragma") {
                lines.push(hash)?;
            }
            Ok(())
        }
        _ => Ok(()),
    }
}

/// The places of the `#` of each line of `#pragma` in a source, in order; where the source is refused, of those before its first fault.
pub fn pragma_lines(alloc: Global, bytes: &[u8]) -> Result<Vec<Place>, NoMemory>
    requires short { length bytes.now ≤ 1048576 }
    ensures { IfOk result (λ lines. lines.items ≡ spec.pragma_lines bytes.now) }
{
    let mut lines = Vec::new(alloc);
    let mut state = nothing_read(alloc, LIMITS);
    let mut place = FIRST_PLACE;
    let mut rest = bytes;
    while !rest.is_empty() {
        let mode = state.mode();
        let (piece, length) = piece_in(mode, rest);
        let (front, more) = rest.split_at(length);
        note(mode, front, piece, &mut lines)?;
        match turn(alloc, &mut state, place, rest, piece, length) {
            Ok(()) => (),
            Err(Stop::Memory) => return Err(NoMemory),
            Err(Stop::Refused(_)) => return Ok(lines),
        }
        place = behind(place, front);
        rest = more;
    }
    Ok(lines)
}
