//! Where C joins a line to the next one.
ghost use Rattle.std.specs.Prelude.{◌≡◌};
ghost use Rattle.k_lex_pieces.specs.Bytes as bytes;
ghost use Rattle.k_lex_pieces.specs.Splices as spec;

use crate::bytes::after;
use k_num::Place;

/// Whether the text begins with a backslash, or with the trigraph for one, and a newline.
fn is_splice(text: &[u8]) -> bool
    ensures { result ≡ spec.is_splice text.now }
{
    match text {
        [b'\\', b'\n', ..] => true,
        [b'?', b'?', b'/', b'\n', ..] => true,
        _ => false,
    }
}

/// The place of the first of so many bytes that a splice begins at.
pub fn splice_in(place: Place, count: usize, text: &[u8]) -> Option<Place>
    requires { bytes.HasRoom place count }
    ensures { result ≡ spec.splice_in place count text.now }
{
    let mut place = place;
    let mut left = count;
    let mut rest = text;
    while let Some((b, more)) = rest.split_first() {
        if left == 0 {
            return None;
        }
        if is_splice(rest) {
            return Some(place);
        }
        place = after(place, *b);
        left -= 1;
        rest = more;
    }
    None
}
