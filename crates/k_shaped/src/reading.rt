//! Conversions, as they stand in a format.
ghost use Rattle.std.specs.Prelude.{◌≡◌, drop};
ghost use Rattle.k_shaped.specs.Reading as reading;

use crate::accepted::is_accepted;
use crate::parts::{
    behind_digits, behind_flags, behind_precision, bytes_of, flagged, length_at, number, precision,
};
use crate::{Conversion, Length, Shape};

/// The shape of a conversion by its text, by what stands from its width on and behind its width, and by its letter.
#[tactic(auto, unfolding(crate::specs::Reading::shape_of))]
fn shape_of(text: &[u8], sized: &[u8], precise: &[u8], letter: u8) -> Shape
    ensures { result ≡ reading.shape_of text.now sized.now precise.now letter }
{
    Shape {
        conversion: letter,
        minus: flagged(b'-', text),
        plus: flagged(b'+', text),
        space: flagged(b' ', text),
        hash: flagged(b'#', text),
        zero: flagged(b'0', text),
        width: number(sized),
        precision: precision(precise),
    }
}

/// A conversion, where a format may have it.
#[tactic(auto, unfolding(crate::specs::Reading::kept))]
fn kept(shape: Shape, length: Length, used: usize) -> Option<Conversion>
    ensures { result ≡ reading.kept shape length used }
{
    if is_accepted(shape, length) {
        Some(Conversion {
            shape,
            length,
            used,
        })
    } else {
        None
    }
}

/// The conversion that a letter ends.
#[tactic(auto, unfolding(crate::specs::Reading::ended))]
fn ended(
    text: &[u8],
    sized: &[u8],
    precise: &[u8],
    length: Length,
    last: &[u8],
) -> Option<Conversion>
    ensures { result ≡ reading.ended text.now sized.now precise.now length last.now }
{
    match last {
        [letter, rest @ ..] => kept(
            shape_of(text, sized, precise, *letter),
            length,
            text.len().saturating_sub(rest.len()),
        ),
        [] => None,
    }
}

/// What stands behind so many bytes.
fn without(text: &[u8], many: usize) -> &[u8]
    ensures { result.now ≡ drop many text.now }
{
    if many <= text.len() {
        &text[many..]
    } else {
        &[]
    }
}

/// The conversion at the front of a text that stands behind a `%`; none where no conversion that a format may have stands there.
#[tactic(auto, unfolding(crate::specs::Reading::read, crate::specs::Reading::with_length))]
pub fn parse_conversion(text: &[u8]) -> Option<Conversion>
    ensures { result ≡ reading.read text.now }
{
    let sized = behind_flags(text);
    let precise = behind_digits(sized);
    let long = behind_precision(precise);
    let length = length_at(long);
    ended(
        text,
        sized,
        precise,
        length,
        without(long, bytes_of(length)),
    )
}
