//! How far a text goes on in one way.
ghost use Rattle.std.specs.Prelude.{◌≡◌, ◌≤◌, false, length, IfSome};
ghost use Rattle.k_lex_pieces.specs.Bytes as bytes;
ghost use Rattle.k_lex_pieces.specs.Scans as spec;

use crate::bytes::{is_digit, is_hexadecimal, is_letter, is_octal, number_goes_on};

/// A class of bytes.
#[derive(Clone, Copy, Debug, PartialEq, Eq)]
pub enum Class {
    Name,
    Digit,
    Octal,
    Hexadecimal,
    /// Any byte but a newline.
    Line,
}

fn is_in(class: Class, b: u8) -> bool
    ensures { result ≡ spec.is_in class b }
{
    match class {
        Class::Name => is_letter(b) || is_digit(b),
        Class::Digit => is_digit(b),
        Class::Octal => is_octal(b),
        Class::Hexadecimal => is_hexadecimal(b),
        Class::Line => b != b'\n',
    }
}

/// How many of the first bytes are in the class.
pub fn span(class: Class, text: &[u8]) -> usize
    ensures found { result ≡ bytes.span (spec.is_in class) text.now }
    ensures within { result ≤ length text.now }
{
    let mut rest = text;
    let mut count = 0;
    while let Some((b, more)) = rest.split_first() {
        if !is_in(class, *b) {
            return count;
        }
        count += 1;
        rest = more;
    }
    count
}

/// How many bytes go on as the number whose first byte stands before them.
pub fn number_span(first: u8, text: &[u8]) -> usize
    ensures found { result ≡ spec.number_span first text.now }
    ensures within { result ≤ length text.now }
{
    let mut before = first;
    let mut rest = text;
    let mut count = 0;
    while let Some((b, more)) = rest.split_first() {
        if !number_goes_on(before, *b) {
            return count;
        }
        count += 1;
        before = *b;
        rest = more;
    }
    count
}

/// Behind how many bytes the closing quote ends.
pub fn closing_quote(quote: u8, text: &[u8]) -> Option<usize>
    ensures found { result ≡ spec.close_at quote false 0 text.now }
    ensures within { IfSome result (λ count. count ≤ length text.now) }
{
    let mut escaped = false;
    let mut rest = text;
    let mut count = 0;
    while let Some((b, more)) = rest.split_first() {
        count += 1;
        if !escaped && *b == quote {
            return Some(count);
        }
        if *b == b'\n' {
            return None;
        }
        escaped = !escaped && *b == b'\\';
        rest = more;
    }
    None
}

/// Behind how many bytes a comment ends, of the text behind its `/*`.
pub fn comment_end(text: &[u8]) -> Option<usize>
    ensures found { result ≡ spec.comment_at false 0 text.now }
    ensures within { IfSome result (λ count. count ≤ length text.now) }
{
    let mut star = false;
    let mut rest = text;
    let mut count = 0;
    while let Some((b, more)) = rest.split_first() {
        count += 1;
        if star && *b == b'/' {
            return Some(count);
        }
        star = *b == b'*';
        rest = more;
    }
    None
}

/// Behind how many bytes a header's name ends, of the text behind its `<`.
pub fn header_end(text: &[u8]) -> Option<usize>
    ensures found { result ≡ spec.header_at 0 text.now }
    ensures within { IfSome result (λ count. count ≤ length text.now) }
{
    let mut rest = text;
    let mut count = 0;
    while let Some((b, more)) = rest.split_first() {
        count += 1;
        if *b == b'>' {
            return Some(count);
        }
        if *b == b'\n' {
            return None;
        }
        rest = more;
    }
    None
}
