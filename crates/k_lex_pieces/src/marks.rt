//! Punctuators by their bytes.
ghost use Rattle.std.specs.Prelude.{◌≡◌, [], ◌∷◌};
ghost use Rattle.k_lex_pieces.specs.Marks.{mark_of};
ghost use Rattle.k_lex_pieces.specs.Scans as scans;

use crate::pieces::Piece;
use k_tree::Mark;

/// The punctuator of one byte.
fn single(a: u8) -> Option<Mark>
    ensures { result ≡ mark_of (a ∷ []) }
{
    match a {
        b'[' => Some(Mark::LeftBracket),
        b']' => Some(Mark::RightBracket),
        b'(' => Some(Mark::LeftParen),
        b')' => Some(Mark::RightParen),
        b'{' => Some(Mark::LeftBrace),
        b'}' => Some(Mark::RightBrace),
        b'&' => Some(Mark::Ampersand),
        b'*' => Some(Mark::Star),
        b'+' => Some(Mark::Plus),
        b'-' => Some(Mark::Minus),
        b'~' => Some(Mark::Tilde),
        b'!' => Some(Mark::Exclaim),
        b'/' => Some(Mark::Slash),
        b'%' => Some(Mark::Percent),
        b'<' => Some(Mark::Less),
        b'>' => Some(Mark::Greater),
        b'^' => Some(Mark::Caret),
        b'|' => Some(Mark::Bar),
        b'?' => Some(Mark::Question),
        b':' => Some(Mark::Colon),
        b';' => Some(Mark::Semicolon),
        b'=' => Some(Mark::Equal),
        b',' => Some(Mark::Comma),
        _ => None,
    }
}

/// The punctuator of two bytes.
fn double(a: u8, b: u8) -> Option<Mark>
    ensures { result ≡ mark_of (a ∷ b ∷ []) }
{
    match (a, b) {
        (b'+', b'+') => Some(Mark::PlusPlus),
        (b'-', b'-') => Some(Mark::MinusMinus),
        (b'<', b'<') => Some(Mark::ShiftLeft),
        (b'>', b'>') => Some(Mark::ShiftRight),
        (b'<', b'=') => Some(Mark::LessEqual),
        (b'>', b'=') => Some(Mark::GreaterEqual),
        (b'=', b'=') => Some(Mark::EqualEqual),
        (b'!', b'=') => Some(Mark::ExclaimEqual),
        (b'&', b'&') => Some(Mark::AmpersandAmpersand),
        (b'|', b'|') => Some(Mark::BarBar),
        (b'*', b'=') => Some(Mark::StarEqual),
        (b'/', b'=') => Some(Mark::SlashEqual),
        (b'%', b'=') => Some(Mark::PercentEqual),
        (b'+', b'=') => Some(Mark::PlusEqual),
        (b'-', b'=') => Some(Mark::MinusEqual),
        (b'&', b'=') => Some(Mark::AmpersandEqual),
        (b'^', b'=') => Some(Mark::CaretEqual),
        (b'|', b'=') => Some(Mark::BarEqual),
        _ => None,
    }
}

/// The punctuator of three bytes.
fn triple(a: u8, b: u8, c: u8) -> Option<Mark>
    ensures { result ≡ mark_of (a ∷ b ∷ c ∷ []) }
{
    match (a, b, c) {
        (b'<', b'<', b'=') => Some(Mark::ShiftLeftEqual),
        (b'>', b'>', b'=') => Some(Mark::ShiftRightEqual),
        _ => None,
    }
}

/// The longest punctuator at the front of the text, as a piece with its length.
pub fn mark_at(text: &[u8]) -> (Piece, usize)
    ensures { result ≡ scans.mark_at text.now }
{
    match text {
        [] => (Piece::Unknown, 1),
        [a] => one_or_none(*a),
        [a, b] => two_or_less(*a, *b),
        [a, b, c, ..] => three_or_less(*a, *b, *c),
    }
}

fn one_or_none(a: u8) -> (Piece, usize)
    ensures { result ≡ scans.mark_at (a ∷ []) }
{
    match single(a) {
        Some(mark) => (Piece::Mark(mark), 1),
        None => (Piece::Unknown, 1),
    }
}

fn two_or_less(a: u8, b: u8) -> (Piece, usize)
    ensures { result ≡ scans.mark_at (a ∷ b ∷ []) }
{
    match double(a, b) {
        Some(mark) => (Piece::Mark(mark), 2),
        None => one_or_none(a),
    }
}

fn three_or_less(a: u8, b: u8, c: u8) -> (Piece, usize)
    ensures { result ≡ scans.mark_at (a ∷ b ∷ c ∷ []) }
{
    match triple(a, b, c) {
        Some(mark) => (Piece::Mark(mark), 3),
        None => two_or_less(a, b),
    }
}
