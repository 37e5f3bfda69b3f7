//! The formats of `printf` (C17 7.21.6.1).
ghost use Rattle.std.specs.Prelude.{◌≡◌, ◌++◌, [], ◌∷◌, List, ℕ, Some, None, IfOk, OnOk, option_map};
ghost use Rattle.k_types_meaning.specs.Formats.{FormatMark, Literal, Takes, takes, only_alone, mark_ended, marks_from};
ghost use Rattle.k_types_meaning.specs.Formats as formats;
ghost use Rattle.k_types_names.specs.Forms.{continued, format_of, formed, mark_in, read_from, reading_in, run_of, unread, with_marks};

use k_num::{Kind, NoMemory, Seq};
use k_types_meaning::{Piece, Written};
use std::alloc::Global;
use std::mem;

/// A format: its pieces, and the kinds of the arguments that it takes.
#[derive(Drop)]
pub struct Format {
    pub pieces: Seq<Piece>,
    pub kinds: Seq<Kind>,
}

/// What stands in a format: a byte that is written, or an argument of a kind.
#[derive(Clone, Copy)]
enum FormatItem {
    Literal(u8),
    Takes(Written, Kind),
}

/// Where a text is read: outside a conversion, or behind `%` and so many `l`.
#[derive(Clone, Copy)]
enum Reading {
    Outside,
    Behind(u8),
}

/// What a byte does: it leads on, it ends what it found, or it stands in no format.
#[derive(Clone, Copy)]
enum Step {
    Leads(Reading),
    Ends(FormatItem),
    Refused,
}

/// A format that is read from its start.
#[derive(Drop)]
struct Growing {
    /// The pieces so far, but for bytes at the end.
    pieces: Seq<Piece>,
    /// The bytes behind these pieces.
    bytes: Seq<u8>,
    /// The kinds of the arguments so far.
    kinds: Seq<Kind>,
}

/// The format that the bytes of a string are, or none where they are no format.
pub fn marks_of(alloc: Global, text: &[u8]) -> Result<Option<Format>, NoMemory>
    ensures { IfOk result (λ format. format ≡ format_of (formats.marks_of text.now)) }
{
    let mut growing = Growing::new(alloc);
    let mut reading = Reading::Outside;
    let mut rest = text;
    while let Some((byte, more)) = rest.split_first() {
        let Some(next) = growing.read(alloc, reading, *byte)? else {
            return Ok(None);
        };
        reading = next;
        rest = more;
    }
    match reading {
        Reading::Outside => growing.finish(alloc),
        Reading::Behind(_) => Ok(None),
    }
}

/// What a byte does where a text is read.
fn read_byte(reading: Reading, byte: u8) -> Step
    ensures { (text : List ℕ) → marks_from (reading_in reading) (byte ∷ text) ≡ continued result text }
{
    match reading {
        Reading::Outside => match byte {
            b'%' => Step::Leads(Reading::Behind(0)),
            0 => Step::Refused,
            _ => Step::Ends(FormatItem::Literal(byte)),
        },
        Reading::Behind(longs) => {
            if byte == b'l' && longs < 2 {
                return Step::Leads(Reading::Behind(longs + 1));
            }
            match ended(longs, byte) {
                Some(found) => Step::Ends(found),
                None => Step::Refused,
            }
        }
    }
}

/// What a byte ends behind `%` and so many `l`.
fn ended(longs: u8, byte: u8) -> Option<FormatItem>
    ensures { option_map mark_in result ≡ mark_ended longs byte }
{
    match byte {
        b'd' | b'i' => Some(taken(Written::Decimal, Kind::I32, Kind::I64, longs)),
        b'u' => Some(taken(Written::Decimal, Kind::U32, Kind::U64, longs)),
        b'x' => Some(taken(Written::Hex, Kind::U32, Kind::U64, longs)),
        b'c' => alone(FormatItem::Takes(Written::Byte, Kind::I32), longs),
        b'%' => alone(FormatItem::Literal(b'%'), longs),
        _ => None,
    }
}

/// A number of 32 bits, or behind `l` of 64.
fn taken(written: Written, short: Kind, long: Kind, longs: u8) -> FormatItem
    ensures { Some (mark_in result) ≡ takes written short long longs }
{
    if longs == 0 {
        FormatItem::Takes(written, short)
    } else {
        FormatItem::Takes(written, long)
    }
}

/// What may stand only directly behind `%`.
fn alone(found: FormatItem, longs: u8) -> Option<FormatItem>
    ensures { option_map mark_in result ≡ only_alone (mark_in found) longs }
{
    if longs == 0 { Some(found) } else { None }
}

impl Growing {
    /// A format of which nothing is read.
    fn new(alloc: Global) -> Growing
        ensures { result ≡ unread }
    {
        Growing {
            pieces: Seq::new(alloc),
            bytes: Seq::new(alloc),
            kinds: Seq::new(alloc),
        }
    }

    /// Reads a byte, and answers where the text behind it is read, if a format can go on so.
    fn read(
        &mut self,
        alloc: Global,
        reading: Reading,
        byte: u8,
    ) -> Result<Option<Reading>, NoMemory>
        ensures { IfOk result (λ next. (text : List ℕ) → formed self.new (read_from next text) ≡ formed self.old (marks_from (reading_in reading) (byte ∷ text))) }
    {
        match read_byte(reading, byte) {
            Step::Leads(next) => Ok(Some(next)),
            Step::Ends(found) => {
                self.add(alloc, found)?;
                Ok(Some(Reading::Outside))
            }
            Step::Refused => Ok(None),
        }
    }

    /// Adds what was found.
    fn add(&mut self, alloc: Global, found: FormatItem) -> Result<(), NoMemory>
        ensures { OnOk result ((marks : List FormatMark) → with_marks self.new marks ≡ with_marks self.old (mark_in found ∷ marks)) }
    {
        match found {
            FormatItem::Literal(byte) => self.bytes.push(byte),
            FormatItem::Takes(written, kind) => {
                self.end_bytes(alloc)?;
                self.pieces.push(Piece::Argument(written))?;
                self.kinds.push(kind)
            }
        }
    }

    /// Makes a piece of the bytes at the end, where there are any.
    fn end_bytes(&mut self, alloc: Global) -> Result<(), NoMemory>
        ensures pieces { OnOk result (self.new.pieces ≡ self.old.pieces ++ run_of self.old.bytes) }
        ensures bytes { OnOk result (self.new.bytes ≡ []) }
        ensures kinds { self.new.kinds ≡ self.old.kinds }
    {
        if self.bytes.is_empty() {
            return Ok(());
        }
        let bytes = mem::replace(&mut self.bytes, Seq::new(alloc));
        self.pieces.push(Piece::Bytes(bytes))
    }

    /// The format, where it is read to its end.
    fn finish(mut self, alloc: Global) -> Result<Option<Format>, NoMemory>
        ensures { IfOk result (λ format. format ≡ Some (with_marks self [])) }
    {
        self.end_bytes(alloc)?;
        let Growing {
            pieces,
            bytes,
            kinds,
        } = self;
        drop(bytes);
        Ok(Some(Format { pieces, kinds }))
    }
}
