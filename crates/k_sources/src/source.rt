//! A source on its way to flat code. Each part of the way lends what it made to the next, and drops it behind that.
ghost use Rattle.std.specs.Prelude.{◌≤◌, IsTrue};
ghost use Rattle.k_code.specs.Valid.{IsValid};
ghost use Rattle.k_tree.specs.Closed.{EndsOnce};
ghost use Rattle.k_tree.specs.Count.{unit_count};

use k_code::{Code, valid};
use k_lex::lex;
use k_lower::lower;
use k_marks::mark;
use k_marks_meaning::Marks;
use k_num::Seq;
use k_optab::standard;
use k_parse::parse;
use k_tree::{Token, Unit};
use k_types::check;
use k_types_meaning::TUnit;
use std::alloc::Global;

/// What is done with a source that was read.
pub trait Reader {
    /// Takes what a source came to: its typed tree, the marks of that, and its flat code, with the standard latencies.
    fn take(&mut self, unit: &TUnit, marks: &Marks, code: &Code)
        requires { IsValid code.now };
}

/// Whether code is valid. Where that can't be told for want of memory, it is not.
fn is_valid(alloc: Global, code: &Code) -> bool
    ensures { IsTrue result → IsValid code.now }
{
    match valid(alloc, code) {
        Ok(is) => is,
        Err(_) => false,
    }
}

/// Lends code that is valid.
fn read_code<R: Reader>(
    alloc: Global,
    unit: &TUnit,
    marks: &Marks,
    code: &Code,
    reader: &mut R,
) -> bool {
    if !is_valid(alloc, code) {
        return false;
    }
    reader.take(unit, marks, code);
    true
}

/// Lends a typed tree with its marks, and its code.
fn read_marked<R: Reader>(alloc: Global, unit: &TUnit, marks: &Marks, reader: &mut R) -> bool {
    match lower(alloc, unit, marks, &standard()) {
        Ok(code) => {
            let read = read_code(alloc, unit, marks, &code, reader);
            drop(code);
            read
        }
        Err(_) => false,
    }
}

/// The same of a typed tree.
fn read_typed<R: Reader>(alloc: Global, unit: &TUnit, reader: &mut R) -> bool {
    match mark(alloc, unit) {
        Ok(marks) => {
            let read = read_marked(alloc, unit, &marks, reader);
            drop(marks);
            read
        }
        Err(_) => false,
    }
}

/// The same of a tree of syntax.
fn read_tree<R: Reader>(alloc: Global, tree: &Unit, reader: &mut R) -> bool
    requires { unit_count tree.now ≤ 262144 }
{
    match check(alloc, tree) {
        Ok(unit) => {
            let read = read_typed(alloc, &unit, reader);
            drop(unit);
            read
        }
        Err(fault) => {
            drop(fault);
            false
        }
    }
}

/// The same of tokens.
fn read_tokens<R: Reader>(alloc: Global, tokens: &Seq<Token>, reader: &mut R) -> bool
    requires { EndsOnce tokens.now }
{
    match parse(alloc, tokens) {
        Ok(tree) => {
            let read = read_tree(alloc, &tree, reader);
            drop(tree);
            read
        }
        Err(_) => false,
    }
}

/// Reads a source, and lends what it came to. Tells whether it did: nothing is lent where the source is refused, or memory is wanting.
pub fn read_source<R: Reader>(alloc: Global, source: &[u8], reader: &mut R) -> bool {
    match lex(alloc, source) {
        Ok(tokens) => {
            let read = read_tokens(alloc, &tokens, reader);
            drop(tokens);
            read
        }
        Err(_) => false,
    }
}
