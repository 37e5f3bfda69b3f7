//! Words for the forms of directives.
ghost use Rattle.std.specs.Prelude.{◌≡◌};
ghost use Rattle.k_lex_bodies.specs.Forms as spec;

use k_lex_pieces::fault::{Fault, Refusal};
use k_lex_pieces::pieces::Piece;
use k_lex_pieces::words::{is_same, word_of};
use k_lex_sources::Cut;
use k_num::Place;

/// The directive with this `#` has not its form.
pub fn unformed(hash: Place) -> Fault
    ensures { result ≡ spec.unformed hash }
{
    Fault {
        what: Refusal::BadDirective,
        place: hash,
    }
}

/// The fault of the directive with this `#` that wants more.
pub fn cut_short(hash: Place, end: Option<Fault>) -> Fault
    ensures { result ≡ spec.cut_short hash end }
{
    match end {
        None => unformed(hash),
        Some(fault) => fault,
    }
}

/// Whether a piece is a name or a keyword.
pub fn is_name(piece: Piece) -> bool
    ensures { result ≡ spec.is_name piece }
{
    matches!(piece, Piece::Name)
}

/// Whether it is a name that is no keyword.
pub fn is_plain_name(cut: &Cut) -> bool
    ensures { result ≡ spec.is_plain_name cut.now }
{
    is_name(cut.what) && word_of(cut.spelling.get().as_slice()).is_none()
}

/// Whether the token is spelled so.
pub fn is_spelled(spelling: &[u8], cut: &Cut) -> bool
    ensures { result ≡ spec.is_spelled spelling.now cut.now }
{
    is_same(cut.spelling.get().as_slice(), spelling)
}
