//! Expressions (C17 6.5), token by token.
pub mod call;
pub mod plug;

use crate::stars::Stars;
use crate::turn::Turn;
use k_num::{Box, Place, Seq, Stack, Text};
use k_tree::{Expr, Mark, Word};

/// An expression that was read: its rank, and how many levels it has.
#[derive(Drop)]
pub struct Term {
    pub tree: Box<Expr>,
    pub rank: u8,
    pub height: usize,
}

/// A construct of which an operand is awaited.
#[derive(Drop)]
pub enum Open {
    /// A binary, assignment or comma operator behind its left operand.
    Infix {
        place: Place,
        op: Mark,
        left: Term,
    },
    /// `test ?`
    Then {
        place: Place,
        test: Term,
    },
    /// `test ? then :`
    Other {
        place: Place,
        test: Term,
        then: Term,
    },
    /// `( specs stars )`
    Cast {
        place: Place,
        specs: Seq<Word>,
        stars: Seq<bool>,
    },
    /// An operator before its operand.
    Prefix {
        place: Place,
        op: Mark,
    },
    /// `sizeof`
    Sizeof {
        place: Place,
    },
    /// `(`
    Paren {
        place: Place,
    },
    /// `base [`
    Index {
        place: Place,
        base: Term,
    },
    /// `name (` and some arguments, with the levels of these.
    Call {
        place: Place,
        name: Text,
        args: Seq<Expr>,
        height: usize,
    },
}

/// Where the reading of an expression stands.
#[derive(Drop)]
pub enum ExpressionStage {
    /// An operand begins.
    Operand,
    /// Behind a name.
    Named { place: Place, name: Text },
    /// In the name of a type.
    Type { specs: Seq<Word>, stars: Stars },
    /// Behind an operand.
    Value { term: Term },
}

/// Where an expression stands: the least rank that it may have, and the level of its topmost node.
#[derive(Clone, Copy, Debug, PartialEq, Eq)]
pub struct Site {
    pub rank: u8,
    pub level: usize,
}

/// What has been read of an expression.
#[derive(Drop)]
pub struct Reading {
    pub site: Site,
    pub opens: Stack<Open>,
    pub stage: ExpressionStage,
}

/// What a token does in an expression. It is done before the token, which belongs to what stands around it.
pub type Fed = Turn<Reading, Box<Expr>>;
