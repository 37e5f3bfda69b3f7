//! The pieces that a text is cut into.

ghost use Rattle.std.specs.Prelude.{◌≡◌, ◌+◌, ◌^◌, ◌<◌, ◌≤◌, [], ◌∷◌, true, false, length};
ghost use Rattle.k_lex_pieces.specs.Bytes as bytes;
ghost use Rattle.k_lex_pieces.specs.Pieces as spec;

use crate::bytes::{is_blank, is_digit, is_letter};
use crate::literals::item_length;
use crate::marks::mark_at;
use crate::scan::{Class, closing_quote, comment_end, header_end, number_span, span};
use k_tree::Mark;

/// What a piece of the text is.
#[derive(Clone, Copy, Debug, PartialEq, Eq)]
pub enum Piece {
    /// A blank that is no newline, or in a `#pragma` any byte.
    Blank,
    Newline,
    Comment,
    /// A name or a keyword.
    Name,
    Number,
    Character,
    Str,
    Mark(Mark),
    /// A header's name with its brackets.
    Header,
    /// `/*` that nothing closes.
    OpenComment,
    /// A quote that nothing closes, or that closes a character constant of another count than one.
    OpenLiteral,
    /// A byte that begins none of these.
    Unknown,
}

fn name_piece(first: u8, rest: &[u8]) -> (Piece, usize)
    requires { bytes.is_letter first ≡ true }
    ensures { result ≡ spec.piece_by spec.class_of (first ∷ rest.now) }
{
    (Piece::Name, span(Class::Name, rest) + 1)
}

/// Whether a number begins with this byte and the bytes behind it.
fn begins_number(first: u8, rest: &[u8]) -> bool
    ensures { result ≡ spec.starts_number first rest.now }
{
    match rest.split_first() {
        None => is_digit(first),
        Some((next, _)) => is_digit(first) || (first == b'.' && is_digit(*next)),
    }
}

fn number_piece(first: u8, rest: &[u8]) -> (Piece, usize)
    requires { spec.starts_number first rest.now ≡ true }
    ensures { result ≡ spec.piece_by spec.class_of (first ∷ rest.now) }
{
    (Piece::Number, number_span(first, rest) + 1)
}

fn character_piece(rest: &[u8]) -> (Piece, usize)
    ensures { result ≡ spec.piece_by spec.class_of (39 ∷ rest.now) }
{
    match closing_quote(b'\'', rest) {
        None => (Piece::OpenLiteral, 1),
        Some(count) => {
            if item_length(&rest[..count]) + 1 == count {
                (Piece::Character, count + 1)
            } else {
                (Piece::OpenLiteral, 1)
            }
        }
    }
}

fn string_piece(rest: &[u8]) -> (Piece, usize)
    ensures { result ≡ spec.piece_by spec.class_of (34 ∷ rest.now) }
{
    match closing_quote(b'"', rest) {
        None => (Piece::OpenLiteral, 1),
        Some(count) => (Piece::Str, count + 1),
    }
}

/// The comment whose text is behind `/*`.
fn comment_piece(rest: &[u8]) -> (Piece, usize)
    ensures anywhere { result ≡ spec.piece_by spec.class_of (47 ∷ 42 ∷ rest.now) }
    ensures pragma { result ≡ spec.piece_by spec.class_in_pragma (47 ∷ 42 ∷ rest.now) }
{
    match comment_end(rest) {
        None => (Piece::OpenComment, 1),
        Some(count) => (Piece::Comment, count + 2),
    }
}

/// The comment whose text is behind `//`.
fn line_piece(rest: &[u8]) -> (Piece, usize)
    ensures anywhere { result ≡ spec.piece_by spec.class_of (47 ∷ 47 ∷ rest.now) }
    ensures pragma { result ≡ spec.piece_by spec.class_in_pragma (47 ∷ 47 ∷ rest.now) }
{
    (Piece::Comment, span(Class::Line, rest) + 2)
}

fn slash_piece(text: &[u8], rest: &[u8]) -> (Piece, usize)
    requires { text.now ≡ 47 ∷ rest.now }
    ensures { result ≡ spec.piece_by spec.class_of (47 ∷ rest.now) }
{
    match rest.split_first() {
        None => mark_at(text),
        Some((next, behind)) => {
            if *next == b'*' {
                comment_piece(behind)
            } else if *next == b'/' {
                line_piece(behind)
            } else {
                mark_at(text)
            }
        }
    }
}

fn piece_from(first: u8, rest: &[u8], text: &[u8]) -> (Piece, usize)
    requires { text.now ≡ first ∷ rest.now }
    ensures { result ≡ spec.piece_by spec.class_of (first ∷ rest.now) }
{
    if is_letter(first) {
        name_piece(first, rest)
    } else if begins_number(first, rest) {
        number_piece(first, rest)
    } else if first == b'\'' {
        character_piece(rest)
    } else if first == b'"' {
        string_piece(rest)
    } else if first == b'/' {
        slash_piece(text, rest)
    } else if is_blank(first) {
        (Piece::Blank, 1)
    } else if first == b'\n' {
        (Piece::Newline, 1)
    } else {
        mark_at(text)
    }
}

/// The longest piece at the front of the text, and its length.
pub fn piece_at(text: &[u8]) -> (Piece, usize)
    ensures { result ≡ spec.piece_by spec.class_of text.now }
{
    match text.split_first() {
        None => (Piece::Unknown, 1),
        Some((first, rest)) => piece_from(*first, rest, text),
    }
}

fn pragma_slash(rest: &[u8]) -> (Piece, usize)
    ensures { result ≡ spec.piece_by spec.class_in_pragma (47 ∷ rest.now) }
{
    match rest.split_first() {
        None => (Piece::Blank, 1),
        Some((next, behind)) => {
            if *next == b'*' {
                comment_piece(behind)
            } else if *next == b'/' {
                line_piece(behind)
            } else {
                (Piece::Blank, 1)
            }
        }
    }
}

/// The same in a `#pragma`.
pub fn piece_in_pragma(text: &[u8]) -> (Piece, usize)
    ensures { result ≡ spec.piece_by spec.class_in_pragma text.now }
{
    match text.split_first() {
        None => (Piece::Unknown, 1),
        Some((first, rest)) => {
            if *first == b'/' {
                pragma_slash(rest)
            } else if *first == b'\n' {
                (Piece::Newline, 1)
            } else {
                (Piece::Blank, 1)
            }
        }
    }
}

fn header_piece(rest: &[u8]) -> (Piece, usize)
    ensures { result ≡ spec.piece_by spec.class_in_include (60 ∷ rest.now) }
{
    match header_end(rest) {
        None => (Piece::Unknown, 1),
        Some(count) => (Piece::Header, count + 1),
    }
}

/// The same behind `#include`.
pub fn piece_in_include(text: &[u8]) -> (Piece, usize)
    ensures { result ≡ spec.piece_by spec.class_in_include text.now }
{
    match text.split_first() {
        None => piece_at(text),
        Some((first, rest)) => {
            if *first == b'<' {
                header_piece(rest)
            } else {
                piece_at(text)
            }
        }
    }
}
