//! Classes of bytes.
ghost use Rattle.std.specs.Prelude.{◌≡◌, ◌+◌, ◌≤◌, length};
ghost use Rattle.k_lex_pieces.specs.Bytes as spec;
ghost use Rattle.k_lex_pieces.specs.Pieces as pieces;

use k_num::Place;

/// A letter or `_`.
pub fn is_letter(b: u8) -> bool
    ensures { result ≡ spec.is_letter b }
{
    matches!(b, b'a'..=b'z' | b'A'..=b'Z' | b'_')
}

pub fn is_digit(b: u8) -> bool
    ensures { result ≡ spec.is_digit b }
{
    b.is_ascii_digit()
}

pub fn is_octal(b: u8) -> bool
    ensures { result ≡ spec.is_octal b }
{
    matches!(b, b'0'..=b'7')
}

pub fn is_hexadecimal(b: u8) -> bool
    ensures { result ≡ spec.is_hexadecimal b }
{
    matches!(b, b'0'..=b'9' | b'a'..=b'f' | b'A'..=b'F')
}

/// A blank that is no newline.
pub fn is_blank(b: u8) -> bool
    ensures { result ≡ spec.is_blank b }
{
    matches!(b, b' ' | b'\t' | 11 | 12 | b'\r')
}

/// Whether a number goes on with this byte behind that one.
pub fn number_goes_on(before: u8, b: u8) -> bool
    ensures { result ≡ pieces.goes_on before b }
{
    is_letter(b)
        || is_digit(b)
        || b == b'.'
        || (matches!(before, b'e' | b'E' | b'p' | b'P') && (b == b'+' || b == b'-'))
}

/// The value of a digit of any base.
pub fn digit_value(b: u8) -> u8
    ensures { result ≡ spec.digit_value b }
{
    match b {
        ..=b'9' => b.saturating_sub(b'0'),
        b'a'.. => b - b'a' + 10,
        _ => b.saturating_sub(b'A' - 10),
    }
}

/// The place behind a byte.
pub fn after(place: Place, b: u8) -> Place
    requires { spec.HasRoom place 1 }
    ensures { result ≡ spec.after place b }
{
    if b == b'\n' {
        Place {
            line: place.line + 1,
            column: 1,
        }
    } else {
        Place {
            line: place.line,
            column: place.column + 1,
        }
    }
}

/// The place behind some bytes.
pub fn behind(place: Place, bytes: &[u8]) -> Place
    requires { spec.HasRoom place (length bytes.now) }
    ensures exact { result ≡ spec.behind place bytes.now }
    ensures line { result.line ≤ place.line + length bytes.now }
    ensures column { result.column ≤ place.column + length bytes.now }
{
    let mut place = place;
    let mut rest = bytes;
    while let Some((b, more)) = rest.split_first() {
        place = after(place, *b);
        rest = more;
    }
    place
}
