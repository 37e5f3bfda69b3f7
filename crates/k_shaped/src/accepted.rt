//! Which conversions a format may have.
ghost use Rattle.std.specs.Prelude.{◌≡◌};
ghost use Rattle.k_shaped.specs.Accepted as accepted;

use crate::letters::{is_based, is_number, is_real, is_signed, is_whole};
use crate::{Length, Shape};

/// The greatest width and precision.
const MOST: u32 = 4095;

/// Whether a precision is within the limit, if there is one.
#[tactic(auto, unfolding(crate::specs::Accepted::is_small))]
fn is_small(precision: Option<u32>) -> bool
    ensures { result ≡ accepted.is_small precision }
{
    match precision {
        Some(p) => p <= MOST,
        None => true,
    }
}

/// Whether a byte is a letter of a conversion.
#[tactic(auto, unfolding(crate::specs::Accepted::is_letter))]
fn is_letter(c: u8) -> bool
    ensures { result ≡ accepted.is_letter c }
{
    is_number(c) || c == b'c' || c == b's' || c == b'%'
}

/// Whether the flags go with the letter.
#[tactic(auto, unfolding(crate::specs::Accepted::have_flags))]
fn have_flags(shape: Shape) -> bool
    ensures { result ≡ accepted.have_flags shape }
{
    let c = shape.conversion;
    if (shape.plus || shape.space) && !is_signed(c) && !is_real(c) {
        return false;
    }
    if shape.hash && !is_based(c) {
        return false;
    }
    !shape.zero || is_number(c)
}

/// Whether the precision goes with the letter.
#[tactic(auto, unfolding(crate::specs::Accepted::has_precision))]
fn has_precision(shape: Shape) -> bool
    ensures { result ≡ accepted.has_precision shape }
{
    shape.precision.is_none() || is_number(shape.conversion) || shape.conversion == b's'
}

/// Whether the length goes with the letter.
#[tactic(auto, unfolding(crate::specs::Accepted::has_length))]
fn has_length(c: u8, length: Length) -> bool
    ensures { result ≡ accepted.has_length c length }
{
    match length {
        Length::Plain => true,
        Length::Long => is_number(c),
        _ => is_whole(c),
    }
}

/// Whether a `%` has nothing between it and the first.
#[tactic(auto, unfolding(crate::specs::Accepted::stands_alone))]
fn stands_alone(shape: Shape) -> bool
    ensures { result ≡ accepted.stands_alone shape }
{
    shape.conversion != b'%' || (!shape.minus && shape.width == 0)
}

/// Whether a format may have a conversion.
#[tactic(auto, unfolding(crate::specs::Accepted::is_accepted))]
pub(crate) fn is_accepted(shape: Shape, length: Length) -> bool
    ensures { result ≡ accepted.is_accepted shape length }
{
    if !is_letter(shape.conversion) {
        return false;
    }
    if shape.width > MOST || !is_small(shape.precision) {
        return false;
    }
    if !have_flags(shape) || !has_precision(shape) {
        return false;
    }
    has_length(shape.conversion, length) && stands_alone(shape)
}
