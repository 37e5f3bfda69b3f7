//! The headers and their macros.
ghost use Rattle.std.specs.Prelude.{◌≡◌, [], ◌∷◌, map, IfOk, OnOk};
ghost use Rattle.k_lex_macros.specs.Macros as spec;
ghost use Rattle.k_lex_macros.specs.Table.{listed, IsIndexed, ArePlanned};
ghost use Rattle.k_lex_macros.specs.Headers.{plain, lexeme_of, macro_of};

use crate::copies::{copy_of, copy_of_bytes};
use crate::macros::{Lexeme, Macros, same_body};
use k_lex_pieces::words::is_same;
use k_num::{Kind, NoMemory, Seq};
use k_tree::{Mark, TokenKind, Word};
use std::alloc::Global;

/// A header that may be included.
#[derive(Clone, Copy, Debug, PartialEq, Eq)]
pub enum Header {
    Stdio,
    Stdlib,
    Stddef,
    Limits,
}

/// A macro of a header.
#[derive(Debug, Drop)]
pub struct Plain {
    name: Seq<u8>,
    body: Seq<Lexeme>,
}

/// A token of a header's macro, and how many bytes spell it.
#[derive(Clone, Copy, Debug)]
struct Part {
    what: Fixed,
    size: usize,
}

#[derive(Clone, Copy, Debug)]
enum Fixed {
    Word(Word),
    Mark(Mark),
    Number(Kind, u64),
}

const OPEN: Part = Part {
    what: Fixed::Mark(Mark::LeftParen),
    size: 1,
};

const CLOSE: Part = Part {
    what: Fixed::Mark(Mark::RightParen),
    size: 1,
};

const MINUS: Part = Part {
    what: Fixed::Mark(Mark::Minus),
    size: 1,
};

const ONE: Part = Part {
    what: Fixed::Number(Kind::I32, 1),
    size: 1,
};

const UNSIGNED: Part = Part {
    what: Fixed::Word(Word::Unsigned),
    size: 8,
};

const LONG: Part = Part {
    what: Fixed::Word(Word::Long),
    size: 4,
};

const GREATEST_INT: Part = Part {
    what: Fixed::Number(Kind::I32, 2_147_483_647),
    size: 10,
};

const GREATEST_UNSIGNED: Part = Part {
    what: Fixed::Number(Kind::U32, 4_294_967_295),
    size: 11,
};

const GREATEST_LONG: Part = Part {
    what: Fixed::Number(Kind::I64, 9_223_372_036_854_775_807),
    size: 20,
};

const GREATEST_UNSIGNED_LONG: Part = Part {
    what: Fixed::Number(Kind::U64, 18_446_744_073_709_551_615),
    size: 22,
};

/// The header that is spelled so, with its brackets.
pub fn header_of(spelling: &[u8]) -> Option<Header>
    ensures { result ≡ spec.header_of spelling.now }
{
    if is_same(b"<stdio.h>", spelling) {
        Some(Header::Stdio)
    } else if is_same(b"<stdlib.h>", spelling) {
        Some(Header::Stdlib)
    } else if is_same(b"<stddef.h>", spelling) {
        Some(Header::Stddef)
    } else if is_same(b"<limits.h>", spelling) {
        Some(Header::Limits)
    } else {
        None
    }
}

fn body_of(alloc: Global, parts: &[Part]) -> Result<Seq<Lexeme>, NoMemory>
    ensures { IfOk result (λ body. body ≡ map lexeme_of parts.now) }
{
    let mut body = Seq::new(alloc);
    for part in parts {
        let what = match part.what {
            Fixed::Word(word) => TokenKind::Word(word),
            Fixed::Mark(mark) => TokenKind::Mark(mark),
            Fixed::Number(kind, value) => TokenKind::Number(kind, value),
        };
        body.push(Lexeme {
            what,
            size: part.size,
        })?;
    }
    Ok(body)
}

fn plain_of(alloc: Global, name: &[u8], parts: &[Part]) -> Result<Plain, NoMemory>
    ensures { IfOk result (λ p. plain p ≡ (name.now, map lexeme_of parts.now)) }
{
    let name = copy_of_bytes(alloc, name)?;
    let body = body_of(alloc, parts)?;
    Ok(Plain { name, body })
}

/// A macro of a header as the tables below have it: its name and its body.
type Row<'a> = (&'a [u8], &'a [Part]);

const SIZE_TYPE: Row<'static> = (b"size_t", &[UNSIGNED, LONG]);

const STDIO: &[Row<'static>] = &[(b"EOF", &[OPEN, MINUS, ONE, CLOSE]), SIZE_TYPE];

const STDDEF: &[Row<'static>] = &[SIZE_TYPE];

const LIMITS: &[Row<'static>] = &[
    (b"INT_MIN", &[OPEN, MINUS, GREATEST_INT, MINUS, ONE, CLOSE]),
    (b"INT_MAX", &[GREATEST_INT]),
    (b"UINT_MAX", &[GREATEST_UNSIGNED]),
    (
        b"LONG_MIN",
        &[OPEN, MINUS, GREATEST_LONG, MINUS, ONE, CLOSE],
    ),
    (b"LONG_MAX", &[GREATEST_LONG]),
    (b"ULONG_MAX", &[GREATEST_UNSIGNED_LONG]),
];

/// The macros of a table.
fn plains_of(alloc: Global, rows: &[Row<'_>]) -> Result<Vec<Plain>, NoMemory>
    ensures { IfOk result (λ list. map plain list.items ≡ map macro_of rows.now) }
{
    let mut list = Vec::new(alloc);
    for (name, parts) in rows {
        list.push(plain_of(alloc, name, parts)?)?;
    }
    Ok(list)
}

fn rows_of(header: Header) -> &'static [Row<'static>]
    ensures { map macro_of result.now ≡ spec.header_macros header }
{
    match header {
        Header::Stdio => STDIO,
        Header::Stdlib | Header::Stddef => STDDEF,
        Header::Limits => LIMITS,
    }
}

/// The macros of a header.
pub fn macros_of(alloc: Global, header: Header) -> Result<Vec<Plain>, NoMemory>
    ensures { IfOk result (λ list. map plain list.items ≡ spec.header_macros header) }
{
    plains_of(alloc, rows_of(header))
}

/// Whether a new name stands in the body of an earlier macro.
pub fn breaks_order(macros: &Macros, list: &[Plain]) -> bool
    requires { IsIndexed macros.now }
    ensures { result ≡ spec.breaks_order (listed macros.now) (map plain list.now) }
{
    for new in list {
        if macros.find(new.name.as_slice()).is_none() && macros.mentions(new.name.as_slice()) {
            return true;
        }
    }
    false
}

fn differs(macros: &Macros, new: &Plain) -> bool
    requires { IsIndexed macros.now }
    ensures { result ≡ spec.differs (listed macros.now) new.now.body (spec.find (listed macros.now) new.now.name) }
{
    match macros.find(new.name.as_slice()) {
        None => false,
        Some(number) => !same_body(macros.body_at(number), new.body.as_slice()),
    }
}

/// Whether a known name has another body.
pub fn changes(macros: &Macros, list: &[Plain]) -> bool
    requires { IsIndexed macros.now }
    ensures { result ≡ spec.changes (listed macros.now) (map plain list.now) }
{
    for new in list {
        if differs(macros, new) {
            return true;
        }
    }
    false
}

fn copy_of_body(alloc: Global, body: &[Lexeme]) -> Result<Seq<Lexeme>, NoMemory>
    ensures { IfOk result (λ copy. copy ≡ body.now) }
{
    let mut copy = Seq::new(alloc);
    for x in body {
        let what = copy_of(alloc, &x.what)?;
        copy.push(Lexeme { what, size: x.size })?;
    }
    Ok(copy)
}

/// Adds those of the macros that are new.
pub fn add_new(alloc: Global, list: &[Plain], macros: &mut Macros) -> Result<(), NoMemory>
    requires indexed { IsIndexed macros.old }
    requires planned { ArePlanned macros.old }
    ensures listed { OnOk result (listed macros.new ≡ spec.included (listed macros.old) (map plain list.now)) }
    ensures indexed { OnOk result (IsIndexed macros.new) }
    ensures planned { OnOk result (ArePlanned macros.new) }
{
    for new in list {
        if macros.find(new.name.as_slice()).is_none() {
            let name = copy_of_bytes(alloc, new.name.as_slice())?;
            let body = copy_of_body(alloc, new.body.as_slice())?;
            macros.define(alloc, name, body)?;
        }
    }
    Ok(())
}
