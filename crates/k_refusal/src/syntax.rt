//! Which sentence tells of a token that can't stand at its place, by that token.
ghost use Rattle.std.specs.Prelude.{◌≡◌};
ghost use Rattle.k_refusal.specs.Syntax as spec;
ghost use Rattle.k_refusal.specs.Tables.{left_out_words, look_up};

use crate::front::{behind, behind_blanks, behind_closing, first_byte, front, is_digit, word_at};
use crate::sentence::{Sentence, StrayMark, StrayWord};
use crate::tables::{accepted_word, left_out_word, mark};

/// A name or a number, by its first byte.
fn of_name(first: u8) -> Sentence
    ensures { result ≡ spec.of_name first }
{
    if is_digit(first) {
        Sentence::StrayWord(StrayWord::StrayNumber)
    } else {
        Sentence::StrayWord(StrayWord::StrayName)
    }
}

/// A keyword, a name or a number.
fn of_any_word(word: &[u8]) -> Sentence
    ensures { result ≡ spec.of_left_out (look_up left_out_words word.now) word.now }
{
    if let Some(sentence) = left_out_word(word) {
        return sentence;
    }
    match accepted_word(word) {
        Some(sentence) => sentence,
        None => of_name(first_byte(word)),
    }
}

/// A word, behind this byte.
fn of_word(before: u8, word: &[u8]) -> Sentence
    ensures { result ≡ spec.of_word before word.now }
{
    if before == b'[' && word == b"static".as_slice() {
        Sentence::StrayWord(StrayWord::StaticSize)
    } else {
        of_any_word(word)
    }
}

/// Whether the declarator of a pointer to an array begins here.
fn is_array_pointer(rest: &[u8]) -> bool
    ensures { result ≡ spec.is_array_pointer rest.now }
{
    first_byte(rest) == b'('
        && first_byte(behind_blanks(behind(rest, 1))) == b'*'
        && first_byte(behind_blanks(behind_closing(rest))) == b'['
}

/// A mark or a literal.
fn of_other_mark(rest: &[u8]) -> Sentence
    ensures { result ≡ spec.of_other_mark rest.now }
{
    if is_array_pointer(rest) {
        Sentence::StrayMark(StrayMark::PointerToArray)
    } else {
        mark(front(rest, 1)).unwrap_or(Sentence::StrayMark(StrayMark::StrayToken))
    }
}

/// A mark or a literal, behind this byte.
fn of_mark(before: u8, rest: &[u8]) -> Sentence
    ensures { result ≡ spec.of_mark before rest.now }
{
    if before == b'-' && first_byte(rest) == b'>' {
        Sentence::StrayMark(StrayMark::Arrow)
    } else {
        of_other_mark(rest)
    }
}

/// A token: a word, or else a mark or a literal behind this byte.
fn of_token(before: u8, rest: &[u8], word: &[u8]) -> Sentence
    ensures { result ≡ spec.of_token before rest.now word.now }
{
    match word.split_first() {
        Some(_) => of_word(before, word),
        None => of_mark(before, rest),
    }
}

/// What stands at a place, behind this byte.
pub(crate) fn of_syntax(before: u8, rest: &[u8]) -> Sentence
    ensures { result ≡ spec.of_syntax before rest.now }
{
    match rest.split_first() {
        Some(_) => of_token(before, rest, word_at(rest)),
        None => Sentence::StrayWord(StrayWord::EndsEarly),
    }
}
