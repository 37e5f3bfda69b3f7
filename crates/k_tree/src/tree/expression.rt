//! Expressions (C17 6.5).

use crate::tokens::mark::Mark;
use crate::tokens::word::Word;
use k_num::{Box, Kind, Place, Seq, Text};

/// An expression. A binary, assignment, conditional or comma expression stands where its operator
/// stands, an index at its `[`, a postfix operator at itself, a call at its name, and every other
/// expression at its first token.
#[derive(Debug, PartialEq, Eq, Drop)]
pub enum Expr {
    /// `name`
    Name {
        place: Place,
        name: Text,
    },
    /// An integer constant.
    Number {
        place: Place,
        kind: Kind,
        value: u64,
    },
    /// A character constant.
    Char {
        place: Place,
        value: i32,
    },
    /// A string.
    Str {
        place: Place,
        bytes: Seq<u8>,
    },
    /// `( of )`
    Paren {
        place: Place,
        of: Box<Expr>,
    },
    /// `base [ index ]`
    Index {
        place: Place,
        base: Box<Expr>,
        index: Box<Expr>,
    },
    /// `name ( args )`
    Call {
        place: Place,
        name: Text,
        args: Seq<Expr>,
    },
    /// `of ++`, `of --`
    Post {
        place: Place,
        op: Mark,
        of: Box<Expr>,
    },
    /// `++ of`, `-- of`
    Pre {
        place: Place,
        op: Mark,
        of: Box<Expr>,
    },
    /// `& * + - ~ !` before an operand.
    Unary {
        place: Place,
        op: Mark,
        of: Box<Expr>,
    },
    /// `sizeof of`
    SizeofExpr {
        place: Place,
        of: Box<Expr>,
    },
    /// `sizeof ( specs stars )`
    SizeofType {
        place: Place,
        specs: Seq<Word>,
        stars: Seq<bool>,
    },
    /// `( specs stars ) of`
    Cast {
        place: Place,
        specs: Seq<Word>,
        stars: Seq<bool>,
        of: Box<Expr>,
    },
    /// `left op right`, with one of the 18 binary operators.
    Binary {
        place: Place,
        op: Mark,
        left: Box<Expr>,
        right: Box<Expr>,
    },
    /// `test ? then : other`
    Cond {
        place: Place,
        test: Box<Expr>,
        then: Box<Expr>,
        other: Box<Expr>,
    },
    /// `left op right`, with `=` or a compound assignment operator.
    Assign {
        place: Place,
        op: Mark,
        left: Box<Expr>,
        right: Box<Expr>,
    },
    /// `left , right`
    Comma {
        place: Place,
        left: Box<Expr>,
        right: Box<Expr>,
    },
}
