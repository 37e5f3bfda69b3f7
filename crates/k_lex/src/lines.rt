//! Lines and directives: what each piece does, one after another.

ghost use Rattle.std.specs.Prelude.{◌≡◌, ◌+◌, ◌≤◌, length, take, OnOk};
ghost use Rattle.k_lex_pieces.specs.Bytes as bytes;
ghost use Rattle.k_lex.specs.Lines as spec;
ghost use Rattle.k_lex.specs.Tokens as tokens;
ghost use Rattle.k_lex.specs.Shown.{shown, Sound, IsSmall, IsReadable};
ghost use Rattle.k_lex_pieces.specs.Outcome.{Gives};

mod definitions;
mod inclusions;
mod text;

use crate::tokens::refusal;
use definitions::{in_again, in_body, in_define};
use inclusions::{in_header, in_include};
use k_lex_macros::headers::Header;
use k_lex_macros::macros::{Lexeme, Macros};
use k_lex_pieces::fault::{Refusal, Stop};
use k_lex_pieces::pieces::{Piece, piece_at, piece_in_include, piece_in_pragma};
use k_lex_pieces::splices::splice_in;
use k_lex_pieces::words::is_same;
use k_num::{Place, Seq};
use k_tree::Token;
use std::alloc::Global;
use text::{in_start, in_text};

/// What has been read of a line.
#[derive(Clone, Copy, Debug, PartialEq, Eq)]
pub enum Mode {
    /// Blanks and comments alone.
    Start,
    /// A token too.
    Middle,
    /// The `#` of a directive, at this place.
    Hash(Place),
    /// `#define`, with the place of the `#`.
    Define(Place),
    /// `#define` and a new name, with the name's place; what follows is the body.
    Body(Place),
    /// `#define` and the name of a known macro; what follows has to be its body.
    Again(Again),
    /// `#include`, with the place of the `#`.
    Include(Place),
    /// `#include` and a header's name.
    Header(Directive),
    /// `#pragma`.
    Pragma,
}

/// A known macro is defined again: the place of its name, its number, and how many tokens of its body
/// have come.
#[derive(Clone, Copy, Debug, PartialEq, Eq)]
pub struct Again {
    pub name: Place,
    pub number: usize,
    pub at: usize,
}

/// A header is included: the places of the `#` and of the header's name, and the header, if it is known.
#[derive(Clone, Copy, Debug, PartialEq, Eq)]
pub struct Directive {
    pub hash: Place,
    pub name: Place,
    pub header: Option<Header>,
}

/// How many bytes a source, tokens and bytes of their spellings there may be.
#[derive(Clone, Copy, Debug, PartialEq, Eq)]
pub struct Limits {
    pub source: usize,
    pub tokens: usize,
    pub spelling: usize,
}

/// What has been read of a source.
#[derive(Drop)]
pub struct State {
    limits: Limits,
    mode: Mode,
    /// The name of the macro that is being defined.
    name: Seq<u8>,
    body: Seq<Lexeme>,
    macros: Macros,
    tokens: Seq<Token>,
    /// How many bytes spell the tokens.
    spelled: usize,
}

impl State {
    /// What has been read of the line.
    pub fn mode(&self) -> Mode
        ensures { result ≡ self.now.mode }
    {
        self.mode
    }

    /// The tokens so far.
    pub fn tokens(&self) -> &[Token]
        ensures { result.now ≡ self.now.tokens }
    {
        self.tokens.as_slice()
    }
}

/// Nothing has been read.
pub fn nothing_read(alloc: Global, limits: Limits) -> State
    requires { IsSmall limits }
    ensures shown { shown result ≡ tokens.nothing_read limits }
    ensures sound { Sound result }
{
    State {
        limits,
        mode: Mode::Start,
        name: Seq::new(alloc),
        body: Seq::new(alloc),
        macros: Macros::new(alloc),
        tokens: Seq::new(alloc),
        spelled: 0,
    }
}

/// The mode behind the word of a directive.
fn directive_mode(hash: Place, spelling: &[u8]) -> Option<Mode>
    ensures { result ≡ spec.directive_mode hash spelling.now }
{
    if is_same(spelling, b"define") {
        Some(Mode::Define(hash))
    } else if is_same(spelling, b"include") {
        Some(Mode::Include(hash))
    } else if is_same(spelling, b"pragma") {
        Some(Mode::Pragma)
    } else {
        None
    }
}

fn in_hash(state: &mut State, hash: Place, spelling: &[u8], piece: Piece) -> Result<(), Stop>
    requires { Sound state.old }
    ensures gives { Gives (λ _. shown state.new) result (spec.in_hash hash spelling.now piece (shown state.old)) }
    ensures sound { OnOk result (Sound state.new) }
{
    match piece {
        Piece::Blank | Piece::Comment => Ok(()),
        Piece::Newline => {
            state.mode = Mode::Start;
            Ok(())
        }
        Piece::Name => match directive_mode(hash, spelling) {
            Some(mode) => {
                state.mode = mode;
                Ok(())
            }
            None => Err(refusal(Refusal::BadDirective, hash)),
        },
        _ => Err(refusal(Refusal::BadDirective, hash)),
    }
}

fn in_pragma(state: &mut State, place: Place, piece: Piece) -> Result<(), Stop>
    requires { Sound state.old }
    ensures gives { Gives (λ _. shown state.new) result (spec.in_pragma place piece (shown state.old)) }
    ensures sound { OnOk result (Sound state.new) }
{
    match piece {
        Piece::Newline => {
            state.mode = Mode::Start;
            Ok(())
        }
        Piece::OpenComment => Err(refusal(Refusal::OpenComment, place)),
        _ => Ok(()),
    }
}

/// What a piece at this place does, with what stands behind it.
pub fn step(
    alloc: Global,
    state: &mut State,
    place: Place,
    spelling: &[u8],
    rest: &[u8],
    piece: Piece,
) -> Result<(), Stop>
    requires sound { Sound state.old }
    requires readable { IsReadable place spelling.now piece }
    ensures gives { Gives (λ _. shown state.new) result (spec.step place spelling.now rest.now piece (shown state.old)) }
    ensures sound { OnOk result (Sound state.new) }
{
    match state.mode {
        Mode::Start => in_start(alloc, state, place, spelling, piece),
        Mode::Middle => in_text(alloc, state, place, spelling, piece),
        Mode::Hash(hash) => in_hash(state, hash, spelling, piece),
        Mode::Define(hash) => in_define(alloc, state, hash, place, spelling, rest, piece),
        Mode::Body(at) => in_body(alloc, state, at, place, spelling, piece),
        Mode::Again(again) => in_again(alloc, state, again, place, spelling, piece),
        Mode::Include(hash) => in_include(state, hash, place, spelling, piece),
        Mode::Header(directive) => in_header(alloc, state, directive, place, piece),
        Mode::Pragma => in_pragma(state, place, piece),
    }
}

/// The longest piece at the front of the text, and its length.
pub fn piece_in(mode: Mode, text: &[u8]) -> (Piece, usize)
    ensures { result ≡ tokens.piece_in mode text.now }
{
    match mode {
        Mode::Pragma => piece_in_pragma(text),
        Mode::Include(_) => piece_in_include(text),
        _ => piece_at(text),
    }
}

/// Whether the text begins with a `//` comment, or with what stands in a `#pragma` and in no comment.
fn ends_with_line(mode: Mode, text: &[u8]) -> bool
    ensures { result ≡ tokens.ends_with_line mode text.now }
{
    match text {
        [b'/', b'/', ..] => true,
        [b'/', b'*', ..] => false,
        _ => matches!(mode, Mode::Pragma),
    }
}

/// Where C would join the next line to what stands in this one, in a piece of so many bytes.
fn splice_of(mode: Mode, place: Place, text: &[u8], count: usize) -> Option<Place>
    requires { bytes.HasRoom place count }
    ensures { result ≡ tokens.splice_of mode place text.now count }
{
    if ends_with_line(mode, text) {
        splice_in(place, count, text)
    } else {
        None
    }
}

/// C would join lines at this place.
fn joins_lines(alloc: Global, state: &mut State, at: Place) -> Result<(), Stop>
    requires { Sound state.old }
    ensures gives { Gives (λ _. shown state.new) result (spec.joins_lines (shown state.old).mode at (shown state.old)) }
    ensures sound { OnOk result (Sound state.new) }
{
    match state.mode {
        Mode::Define(hash) | Mode::Include(hash) => Err(refusal(Refusal::BadDirective, hash)),
        Mode::Header(directive) => in_header(alloc, state, directive, at, Piece::Unknown),
        _ => Err(refusal(Refusal::BadByte, at)),
    }
}

/// What the piece at the front of a text does, which has so many bytes.
pub fn turn(
    alloc: Global,
    state: &mut State,
    place: Place,
    text: &[u8],
    piece: Piece,
    count: usize,
) -> Result<(), Stop>
    requires sound { Sound state.old }
    requires within { count ≤ length text.now }
    requires readable { IsReadable place (take count text.now) piece }
    ensures gives { Gives (λ _. shown state.new) result (tokens.turn place (shown state.old) text.now (piece, count)) }
    ensures sound { OnOk result (Sound state.new) }
{
    match splice_of(state.mode, place, text, count) {
        Some(at) => joins_lines(alloc, state, at),
        None => {
            let (front, more) = text.split_at(count);
            step(alloc, state, place, front, more, piece)
        }
    }
}
