//! A whole source.
ghost use Rattle.std.specs.Prelude.{◌≡◌, ◌^◌, ◌<◌, ◌≤◌, ◌⊎◌, length, Ok, Err, IfOk, IfErr};
ghost use Rattle.k_tree.specs.Closed.{EndsOnce};
ghost use Rattle.k_tree.specs.Literals.{NumbersAreHeld, StringsFit};
ghost use Rattle.k_lex.specs.Tokens as spec;
ghost use Rattle.k_lex.specs.Laws.{kinds_of};
ghost use Rattle.k_lex.specs.Shown.{shown, IsSmall};
ghost use Rattle.k_lex_pieces.specs.Outcome.{Gives};

use crate::fault::LexFault;
use crate::joined::joined;
use crate::lines::{Limits, State, nothing_read, piece_in, step, turn};
use crate::tokens::refusal;
use k_lex_pieces::bytes::behind;
use k_lex_pieces::fault::{Fault, Refusal, Stop};
use k_lex_pieces::pieces::Piece;
use k_num::{Place, Seq};
use k_tree::Token;
use std::alloc::Global;

/// The limits of a source.
pub(crate) const LIMITS: Limits = Limits {
    source: 1_048_576,
    tokens: 400_000,
    spelling: 4_194_304,
};

pub(crate) const FIRST_PLACE: Place = Place { line: 1, column: 1 };

/// Reads the bytes, piece by piece.
fn read(alloc: Global, limits: Limits, bytes: &[u8]) -> Result<(State, Place), Stop>
    requires small { IsSmall limits }
    requires length { length bytes.now < 2 ^ 31 }
    ensures { Gives (λ end. (shown end.0, end.1)) result (spec.run 0 spec.first_place (spec.nothing_read limits) bytes.now) }
{
    let mut state = nothing_read(alloc, limits);
    let mut place = FIRST_PLACE;
    let mut rest = bytes;
    while !rest.is_empty() {
        let (piece, length) = piece_in(state.mode(), rest);
        let (front, more) = rest.split_at(length);
        if let Err(stop) = turn(alloc, &mut state, place, rest, piece, length) {
            return Err(stop);
        }
        place = behind(place, front);
        rest = more;
    }
    match step(alloc, &mut state, place, &[], &[], Piece::Newline) {
        Ok(()) => Ok((state, place)),
        Err(stop) => Err(stop),
    }
}

/// The tokens of a source within limits.
fn lex_within(alloc: Global, limits: Limits, bytes: &[u8]) -> Result<Seq<Token>, Stop>
    requires small { IsSmall limits }
    requires source { limits.source < 2 ^ 31 }
    ensures { Gives (λ list. list) result (spec.tokens_within limits bytes.now) }
{
    if bytes.len() > limits.source {
        return Err(refusal(Refusal::SourceLong, FIRST_PLACE));
    }
    let (state, end) = read(alloc, limits, bytes)?;
    Ok(joined(alloc, state.tokens(), end)?)
}

fn fault_of(fault: Fault) -> LexFault
    ensures { result ≡ spec.fault_of fault.what fault.place }
{
    let place = fault.place;
    match fault.what {
        Refusal::BadByte => LexFault::BadByte(place),
        Refusal::OpenComment => LexFault::OpenComment(place),
        Refusal::OpenLiteral => LexFault::OpenLiteral(place),
        Refusal::BadEscape => LexFault::BadEscape(place),
        Refusal::BadNumber => LexFault::BadNumber(place),
        Refusal::BadDirective => LexFault::BadDirective(place),
        Refusal::UnknownHeader => LexFault::UnknownHeader(place),
        Refusal::MacroOrder => LexFault::MacroOrder(place),
        Refusal::MacroAgain => LexFault::MacroAgain(place),
        Refusal::SourceLong => LexFault::SourceLong(place),
        Refusal::TokensMany => LexFault::TokensMany(place),
    }
}

/// The tokens of a source, of which the last is the end.
pub fn lex(alloc: Global, bytes: &[u8]) -> Result<Seq<Token>, LexFault>
    // The list is that of the definition.
    ensures tokens { IfOk result (λ list. spec.tokens bytes.now ≡ Ok list) }
    // The last token is the end, and no other is.
    ensures ends { IfOk result EndsOnce }
    // Each integer constant is held by its kind.
    ensures held { IfOk result (λ list. NumbersAreHeld (kinds_of list)) }
    // The strings have together at most 4,194,304 bytes.
    ensures strings { IfOk result (λ list. StringsFit (kinds_of list)) }
    // Every refusal but want of memory is the first fault of the definition.
    ensures refused { IfErr result (λ fault. (fault ≡ LexFault.Memory) ⊎ (spec.tokens bytes.now ≡ Err fault)) }
{
    match lex_within(alloc, LIMITS, bytes) {
        Ok(list) => Ok(list),
        Err(Stop::Memory) => Err(LexFault::Memory),
        Err(Stop::Refused(fault)) => Err(fault_of(fault)),
    }
}
