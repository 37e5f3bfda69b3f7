//! The lines of a source, cut into pieces.
ghost use Rattle.std.specs.Prelude.{◌≡◌, ◌^◌, ◌<◌, ◌≤◌, [], ◌∷◌, ◌++◌, length, IfOk, OnOk, codes, true, false};
ghost use Rattle.k_lex_pieces.specs.Bytes.{begins};
ghost use Rattle.k_lex_sources.specs.Rows as spec;
ghost use Rattle.k_lex_sources.specs.Turning.{Ended, Turned};

use crate::splicing::spliced;
use crate::tokens::{front, without, wrong};
use k_lex_expansion::Spelling;
use k_lex_expansion::shared::Shared;
use k_lex_pieces::fault::{Fault, Refusal};
use k_lex_pieces::pieces::{Piece, piece_at, piece_in_pragma};
use k_lex_pieces::words::is_same;
use k_num::{NoMemory, Place, Seq};
use std::alloc::Global;
use std::mem;

/// A piece of a line that is no blank and no comment.
#[derive(Drop)]
pub struct Cut {
    pub place: Place,
    /// Whether blanks, newlines or comments stand before it.
    pub spaced: bool,
    pub what: Piece,
    pub spelling: Spelling,
    /// What is wrong with it where it is read.
    pub fault: Option<Fault>,
}

/// A line.
#[derive(Drop)]
pub struct Row {
    pub cuts: Seq<Cut>,
    /// What is wrong behind these pieces also where the line isn't read. No line follows.
    pub fault: Option<Fault>,
}

/// What a piece does.
#[derive(Clone, Copy)]
pub enum Turn {
    Skips,
    Ends,
    Stops(Fault),
    Takes(Piece),
}

/// How many bytes behind an opening quote belong to it.
fn quoted(quote: u8, text: &[u8]) -> usize
    ensures found { result ≡ spec.quoted quote false text.now }
    ensures within { result ≤ length text.now }
{
    let mut escaped = false;
    let mut rest = text;
    let mut count = 0;
    while let Some((b, more)) = rest.split_first() {
        if *b == b'\n' {
            return count;
        }
        count += 1;
        if !escaped && *b == quote {
            return count;
        }
        escaped = !escaped && *b == b'\\';
        rest = more;
    }
    count
}

/// How many bytes a quote has with what belongs to it.
fn quote_length(text: &[u8]) -> usize
    ensures { result ≡ spec.quote_length text.now }
{
    match text.split_first() {
        None => 1,
        Some((b, rest)) => quoted(*b, rest) + 1,
    }
}

/// The piece at the front of a text, where quotes go on to the end of the line.
fn quoting_piece(text: &[u8]) -> (Piece, usize)
    ensures { result ≡ spec.piece_in false text.now }
{
    let (piece, count) = piece_at(text);
    match piece {
        Piece::OpenLiteral => (Piece::OpenLiteral, quote_length(text)),
        _ => (piece, count),
    }
}

/// The piece at the front of a text, in a `#pragma` or elsewhere.
fn piece_in(pragma: bool, text: &[u8]) -> (Piece, usize)
    ensures { result ≡ spec.piece_in pragma text.now }
{
    if pragma {
        piece_in_pragma(text)
    } else {
        quoting_piece(text)
    }
}

/// The place of the `#` of a line that begins with these pieces, if it is a `#pragma`.
fn pragma_of(cuts: &[Cut]) -> Option<Place>
    ensures { result ≡ spec.pragma_of cuts.now }
{
    match cuts {
        [hash, word, ..] => {
            if is_same(hash.spelling.get().as_slice(), b"#")
                && is_same(word.spelling.get().as_slice(), b"pragma")
            {
                Some(hash.place)
            } else {
                None
            }
        }
        _ => None,
    }
}

/// Whether the two places are one.
fn is_same_place(a: Place, b: Place) -> bool
    ensures { result ≡ spec.same_place a b }
{
    a.line == b.line && a.column == b.column
}

/// Whether the place is one of these.
fn is_among(places: &[Place], place: Place) -> bool
    ensures { result ≡ spec.is_among places.now place }
{
    for other in places {
        if is_same_place(*other, place) {
            return true;
        }
    }
    false
}

/// Whether the line is a `#pragma` that is read.
fn is_read_pragma(unread: &[Place], pragma: Option<Place>) -> bool
    ensures { result ≡ spec.is_read_pragma unread.now pragma }
{
    match pragma {
        None => false,
        Some(hash) => !is_among(unread, hash),
    }
}

/// Whether the text begins with the trigraph for a backslash and a newline.
fn is_trigraph(text: &[u8]) -> bool
    ensures { result ≡ begins (codes "??/\n") text.now }
{
    matches!(text, [b'?', b'?', b'/', b'\n', ..])
}

/// The place of the first of so many bytes that the trigraph for a backslash begins at, before a newline.
fn trigraph_in(count: usize, text: &[u8], places: &[Place]) -> Option<Place>
    ensures { result ≡ spec.trigraph_in count text.now places.now }
{
    let mut left = count;
    let mut rest = text;
    let mut there = places;
    while let Some((_, more)) = rest.split_first() {
        if left == 0 {
            return None;
        }
        if is_trigraph(rest) {
            return Some(front(there));
        }
        left -= 1;
        rest = more;
        there = without(there, 1);
    }
    None
}

/// Whether the end of the line ends the piece at the front of the text.
fn ends_with_line(pragma: bool, text: &[u8]) -> bool
    ensures { result ≡ spec.ends_with_line pragma text.now }
{
    match text {
        [b'/', b'/', ..] => true,
        [b'/', b'*', ..] => false,
        _ => pragma,
    }
}

/// That trigraph in a piece that the end of the line ends.
fn trigraph_of(pragma: bool, count: usize, text: &[u8], places: &[Place]) -> Option<Place>
    ensures { result ≡ spec.trigraph_of pragma count text.now places.now }
{
    if ends_with_line(pragma, text) {
        trigraph_in(count, text, places)
    } else {
        None
    }
}

/// What a piece does at this place.
fn turn_of(place: Place, piece: Piece) -> Turn
    ensures { result ≡ spec.turn_of place piece }
{
    match piece {
        Piece::Blank | Piece::Comment => Turn::Skips,
        Piece::Newline => Turn::Ends,
        Piece::OpenComment => Turn::Stops(Fault {
            what: Refusal::OpenComment,
            place,
        }),
        _ => Turn::Takes(piece),
    }
}

/// The same, but for a trigraph at a place.
fn turn_at(trigraph: Option<Place>, place: Place, piece: Piece) -> Turn
    ensures { result ≡ spec.turn_at trigraph place piece }
{
    match trigraph {
        None => turn_of(place, piece),
        Some(at) => Turn::Stops(Fault {
            what: Refusal::BadByte,
            place: at,
        }),
    }
}

/// A piece with its bytes and what is wrong with it.
fn cut_of(
    alloc: Global,
    spaced: bool,
    spelling: &[u8],
    places: &[Place],
    piece: Piece,
) -> Result<Cut, NoMemory>
    requires { length spelling.now < 2 ^ 31 }
    ensures { IfOk result (λ cut. cut ≡ spec.cut_of spaced spelling.now places.now piece) }
{
    let fault = wrong(alloc, spelling, piece, places)?;
    let bytes = Seq::copy_of(alloc, spelling)?;
    Ok(Cut {
        place: front(places),
        spaced,
        what: piece,
        spelling: Shared::new(alloc, bytes)?,
        fault,
    })
}

/// The lines so far, and the pieces of the last one.
#[derive(Drop)]
pub(crate) struct Reading {
    rows: Seq<Row>,
    cuts: Seq<Cut>,
    spaced: bool,
}

impl Reading {
    /// The pieces are a line.
    fn end_row(&mut self, alloc: Global, fault: Option<Fault>) -> Result<(), NoMemory>
        ensures { OnOk result (Ended self.old self.new fault) }
    {
        let cuts = mem::replace(&mut self.cuts, Seq::new(alloc));
        self.spaced = true;
        self.rows.push(Row { cuts, fault })
    }

    /// What the piece at the front of a text does, which has these bytes. Whether the source goes on behind it.
    fn take_piece(
        &mut self,
        alloc: Global,
        turn: Turn,
        spelling: &[u8],
        places: &[Place],
    ) -> Result<bool, NoMemory>
        requires { length spelling.now < 2 ^ 31 }
        ensures { IfOk result (λ goes. Turned self.old self.new goes (spec.cut_of self.old.spaced spelling.now places.now) turn) }
    {
        match turn {
            Turn::Skips => {
                self.spaced = true;
                Ok(true)
            }
            Turn::Ends => {
                self.end_row(alloc, None)?;
                Ok(true)
            }
            Turn::Stops(fault) => {
                self.end_row(alloc, Some(fault))?;
                Ok(false)
            }
            Turn::Takes(piece) => {
                let cut = cut_of(alloc, self.spaced, spelling, places, piece)?;
                self.cuts.push(cut)?;
                self.spaced = false;
                Ok(true)
            }
        }
    }
}

/// What the piece at the front of a text does, and how many bytes it has.
fn front_of(unread: &[Place], cuts: &[Cut], text: &[u8], places: &[Place]) -> (Turn, usize)
    ensures turn { result.0 ≡ (spec.front_of unread.now cuts.now false text.now places.now).turn }
    ensures count { result.1 ≡ (spec.front_of unread.now cuts.now false text.now places.now).count }
{
    let pragma = pragma_of(cuts);
    let (piece, count) = piece_in(is_read_pragma(unread, pragma), text);
    let trigraph = trigraph_of(pragma.is_some(), count, text, places);
    (turn_at(trigraph, front(places), piece), count)
}

/// The lines of a text whose bytes have these places.
fn rows_of(
    alloc: Global,
    unread: &[Place],
    text: &[u8],
    places: &[Place],
) -> Result<Seq<Row>, NoMemory>
    requires { length text.now < 2 ^ 31 }
    ensures { IfOk result (λ rows. rows ≡ spec.rows_from unread.now 0 [] false text.now places.now) }
{
    let mut reading = Reading {
        rows: Seq::new(alloc),
        cuts: Seq::new(alloc),
        spaced: false,
    };
    let mut rest = text;
    let mut there = places;
    while !rest.is_empty() {
        let (turn, count) = front_of(unread, reading.cuts.as_slice(), rest, there);
        let (spelling, more) = rest.split_at(count);
        if !reading.take_piece(alloc, turn, spelling, there)? {
            return Ok(reading.rows);
        }
        rest = more;
        there = without(there, count);
    }
    reading.end_row(alloc, None)?;
    Ok(reading.rows)
}

/// The lines of a source, where the `#pragma`s with these `#` stand in groups that aren't read. The caller has tested
/// the length.
pub fn cut_rows(alloc: Global, unread: &[Place], source: &[u8]) -> Result<Seq<Row>, NoMemory>
    requires { length source.now < 2 ^ 31 }
    ensures { IfOk result (λ rows. rows ≡ spec.rows unread.now source.now) }
{
    let left = spliced(alloc, source)?;
    rows_of(alloc, unread, left.text.as_slice(), left.places.as_slice())
}
