//! Which sentence tells of a fault in names and types, by what stands at its place.
ghost use Rattle.std.specs.Prelude.{◌≡◌};
ghost use Rattle.k_refusal.specs.Tables.{library, look_up};
ghost use Rattle.k_refusal.specs.Typing as spec;

use crate::front::{behind, behind_blanks, behind_word, first_byte, in_word, is_digit, word_at};
use crate::sentence::{Kinds, Library, Name, Sentence, Usage};
use crate::tables::{library_name, other_library_name, word_of_kinds};

/// A name that the source does not declare.
fn of_unknown(name: &[u8]) -> Sentence
    ensures { result ≡ spec.of_unknown (look_up library name.now) name.now }
{
    match library_name(name) {
        Some(sentence) => sentence,
        None => other_library_name(name).unwrap_or(Sentence::Name(Name::UnknownName)),
    }
}

/// The same, with the text from five bytes before it on: `NULL` within `time(NULL)` is told as the time.
pub(crate) fn of_unknown_behind(call: &[u8], name: &[u8]) -> Sentence
    ensures { result ≡ spec.of_unknown_behind call.now name.now }
{
    if name == b"NULL".as_slice() && word_at(call) == b"time".as_slice() {
        Sentence::Library(Library::RandomOrTime)
    } else {
        of_unknown(name)
    }
}

/// How many stars stand in a row, with one more byte behind them.
fn star_more(stars: u8, byte: u8) -> u8
    ensures { result ≡ spec.star_more stars byte }
{
    match byte {
        b'*' if stars == 0 => 1,
        b'*' => 2,
        b' ' | b'\t' => stars,
        _ => 0,
    }
}

/// How many stars stand in a row at the end of a text: none, one, or two and more.
fn stars_at_end(text: &[u8]) -> u8
    ensures { result ≡ spec.stars_at_end 0 text.now }
{
    let mut stars = 0;
    let mut rest = text;
    while let Some((byte, behind)) = rest.split_first() {
        stars = star_more(stars, *byte);
        rest = behind;
    }
    stars
}

/// Whether an initialiser is 0.
fn is_zero(behind_name: &[u8]) -> bool
    ensures { result ≡ spec.is_zero behind_name.now }
{
    first_byte(behind_name) == b'='
        && word_at(behind_blanks(behind(behind_name, 1))) == b"0".as_slice()
}

/// Whether a byte stands directly behind the name of a declarator that is no array.
fn is_behind_declarator(byte: u8) -> bool
    ensures { result ≡ spec.is_behind_declarator byte }
{
    byte == b';' || byte == b',' || byte == b'='
}

/// A declarator behind one star, by what stands behind its name.
fn of_pointer(behind_name: &[u8]) -> Sentence
    ensures { result ≡ spec.of_pointer behind_name.now }
{
    if first_byte(behind_name) == b'[' {
        Sentence::Kinds(Kinds::ArrayOfPointers)
    } else if is_zero(behind_name) {
        Sentence::Library(Library::NullPointer)
    } else if is_behind_declarator(first_byte(behind_name)) {
        Sentence::Kinds(Kinds::PointerElsewhere)
    } else {
        Sentence::Kinds(Kinds::KindsOther)
    }
}

/// Whether a declaration may begin behind a byte.
fn ends_before(byte: u8) -> bool
    ensures { result ≡ spec.ends_before byte }
{
    byte == b';' || byte == b'{' || byte == b'}'
}

/// What stands behind the last byte of a text behind which a declaration may begin, or the text where it has none.
fn behind_last(text: &[u8]) -> &[u8]
    ensures { result.now ≡ spec.behind_last text.now text.now }
{
    let mut found = text;
    let mut rest = text;
    while let Some((byte, behind)) = rest.split_first() {
        if ends_before(*byte) {
            found = behind;
        }
        rest = behind;
    }
    found
}

/// Whether the declaration that is open at the end of a text begins with `static`.
fn is_static(back: &[u8]) -> bool
    ensures { result ≡ spec.is_static back.now }
{
    word_at(behind_blanks(behind_last(back))) == b"static".as_slice()
}

/// Whether a number or a character constant begins with a byte: types do not fit at one in braces alone.
fn begins_item(byte: u8) -> bool
    ensures { result ≡ spec.begins_item byte }
{
    is_digit(byte) || byte == b'\''
}

/// An operator, by its first byte and the next one.
fn of_operator(first: u8, next: u8) -> Sentence
    ensures { result ≡ spec.of_operator first next }
{
    match first {
        b'=' => Sentence::Kinds(Kinds::SidesDiffer),
        b'!' if next == b'=' => Sentence::Kinds(Kinds::SidesDiffer),
        b'!' => Sentence::Kinds(Kinds::NotOfPointer),
        _ => Sentence::Kinds(Kinds::KindsOther),
    }
}

/// Types that do not fit at a place behind no star.
fn of_place(back: &[u8], rest: &[u8]) -> Sentence
    ensures { result ≡ spec.of_place back.now rest.now }
{
    let first = first_byte(rest);
    if begins_item(first) {
        Sentence::Kinds(Kinds::ItemOfBraces)
    } else if in_word(first) && is_static(back) {
        Sentence::Kinds(Kinds::StaticVariable)
    } else {
        of_operator(first, first_byte(behind(rest, 1)))
    }
}

/// Types that do not fit at a place behind so many stars.
fn of_stars(stars: u8, back: &[u8], rest: &[u8]) -> Sentence
    ensures { result ≡ spec.of_stars stars back.now rest.now }
{
    match stars {
        2 => Sentence::Kinds(Kinds::PointerToPointer),
        1 => of_pointer(behind_blanks(behind_word(rest))),
        _ => of_place(back, rest),
    }
}

/// What stands behind `const` and blanks, where `const` stands first.
fn behind_const(text: &[u8]) -> &[u8]
    ensures { result.now ≡ spec.behind_const text.now }
{
    if word_at(text) == b"const".as_slice() {
        behind_blanks(behind_word(text))
    } else {
        text
    }
}

/// Whether the type of a pointer to void stands first.
fn is_void_pointer(text: &[u8]) -> bool
    ensures { result ≡ spec.is_void_pointer text.now }
{
    let named = behind_const(text);
    let star = behind_const(behind_blanks(behind_word(named)));
    word_at(named) == b"void".as_slice() && first_byte(star) == b'*'
}

/// Types that do not fit, by what stands before and at the place.
#[tactic(auto, unfolding(crate::specs::Typing::of_kinds))]
pub(crate) fn of_kinds(back: &[u8], rest: &[u8]) -> Sentence
    ensures { result ≡ spec.of_kinds back.now rest.now }
{
    if is_void_pointer(rest) {
        return Sentence::Kinds(Kinds::PointerToVoid);
    }
    match word_of_kinds(word_at(rest)) {
        Some(sentence) => sentence,
        None => of_stars(stars_at_end(back), back, rest),
    }
}

/// What is no place, by the operator.
pub(crate) fn of_no_place(first: u8) -> Sentence
    ensures { result ≡ spec.of_no_place first }
{
    if first == b'&' {
        Sentence::Usage(Usage::AddressOf)
    } else {
        Sentence::Usage(Usage::NotAPlace)
    }
}

/// Whether `%s` stands in a text.
fn has_text_piece(text: &[u8]) -> bool
    ensures { result ≡ spec.has_text_piece text.now }
{
    let mut rest = text;
    while let Some((byte, behind)) = rest.split_first() {
        if *byte == b'%' && first_byte(behind) == b's' {
            return true;
        }
        rest = behind;
    }
    false
}

/// A format that does not fit, or none, by what stands from the call's name on.
pub(crate) fn of_format(rest: &[u8]) -> Sentence
    ensures { result ≡ spec.of_format rest.now }
{
    if word_at(rest) == b"puts".as_slice() {
        Sentence::Usage(Usage::PutsOfArray)
    } else if has_text_piece(rest) {
        Sentence::Usage(Usage::TextInFormat)
    } else {
        Sentence::Usage(Usage::BadFormat)
    }
}
