//! Which sentence tells of a fault of the tokens, by what stands at its place.
ghost use Rattle.std.specs.Prelude.{◌≡◌};
ghost use Rattle.k_refusal.specs.Lexical as spec;

use crate::front::{behind, behind_blanks, behind_word, first_byte, word_at};
use crate::sentence::{Directive, Header, Sentence, Token};
use crate::tables::{directive, header};

/// A byte that begins no token. A `?` is one where it begins the trigraph for a backslash.
pub(crate) fn of_byte(byte: u8) -> Sentence
    ensures { result ≡ spec.of_byte byte }
{
    if byte == b'.' {
        Sentence::Token(Token::Member)
    } else if byte == b'\\' || byte == b'?' {
        Sentence::Token(Token::Backslash)
    } else if byte == b'#' {
        Sentence::Token(Token::LateHash)
    } else if byte >= 128 {
        Sentence::Token(Token::NotAscii)
    } else {
        Sentence::Token(Token::StrayByte)
    }
}

/// A literal that is not closed, by its quote.
pub(crate) fn of_literal(quote: u8) -> Sentence
    ensures { result ≡ spec.of_literal quote }
{
    if quote == b'"' {
        Sentence::Token(Token::OpenString)
    } else {
        Sentence::Token(Token::NotOneCharacter)
    }
}

/// Whether a letter stands in a word, in either case.
fn has_letter(word: &[u8], small: u8, capital: u8) -> bool
    ensures { result ≡ spec.has_letter small capital word.now }
{
    word.iter().any(|byte| *byte == small || *byte == capital)
}

/// Whether a number has an exponent.
fn has_exponent(word: &[u8]) -> bool
    ensures { result ≡ spec.has_exponent word.now }
{
    has_letter(word, b'e', b'E') && !has_letter(word, b'x', b'X')
}

/// Whether a number has a point or an exponent.
fn has_point(rest: &[u8]) -> bool
    ensures { result ≡ spec.has_point rest.now }
{
    first_byte(behind_word(rest)) == b'.' || has_exponent(word_at(rest))
}

/// A number that is none.
pub(crate) fn of_number(rest: &[u8]) -> Sentence
    ensures { result ≡ spec.of_number rest.now }
{
    if has_point(rest) {
        Sentence::Token(Token::PointInNumber)
    } else {
        Sentence::Token(Token::NoConstant)
    }
}

/// A macro, by what stands behind `define`.
fn of_macro(behind: &[u8]) -> Sentence
    ensures { result ≡ spec.of_macro behind.now }
{
    if first_byte(behind_word(behind_blanks(behind))) == b'(' {
        Sentence::Directive(Directive::MacroParameters)
    } else {
        Sentence::Directive(Directive::DefineForm)
    }
}

/// A directive, by what stands behind its `#` and blanks.
pub(crate) fn of_directive(behind: &[u8]) -> Sentence
    ensures { result ≡ spec.of_directive behind.now }
{
    let word = word_at(behind);
    if word == b"define".as_slice() {
        return of_macro(behind_word(behind));
    }
    directive(word).unwrap_or(Sentence::Directive(Directive::OtherDirective))
}

/// A header.
pub(crate) fn of_header(rest: &[u8]) -> Sentence
    ensures { result ≡ spec.of_header rest.now }
{
    if first_byte(rest) == b'"' {
        return Sentence::Header(Header::OwnHeader);
    }
    header(word_at(behind(rest, 1))).unwrap_or(Sentence::Header(Header::OtherHeader))
}
