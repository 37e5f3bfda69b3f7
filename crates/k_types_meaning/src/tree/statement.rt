//! Typed statements (C17 6.8).

use crate::tree::declaration::TDeclarator;
use crate::tree::expression::TExpr;
use k_num::{Box, Kind, Place, Seq};

/// What each typed statement has: its number among the expressions and statements of the source, in text
/// order and parents first, and its place.
#[derive(Clone, Copy, Debug, PartialEq, Eq)]
pub struct Spot {
    pub number: u32,
    pub place: Place,
}

/// The first part of a `for`.
#[derive(Drop)]
pub enum TFirst {
    /// No expression.
    Nothing,
    /// An expression.
    Value(TExpr),
    /// Variables are declared.
    Declare(Seq<TDeclarator>),
}

/// A typed statement. The number of a loop counts the loops of the source in text order.
#[cycle(statements)]
#[derive(Drop)]
pub enum TStmt {
    /// `value ;`
    Expr {
        spot: Spot,
        value: Box<TExpr>,
    },
    /// `;`
    Empty {
        spot: Spot,
    },
    /// `{ parts }`
    Block {
        spot: Spot,
        parts: Seq<TStmt>,
    },
    /// `if ( test ) then`, and `else other` where there is one.
    If {
        spot: Spot,
        test: Box<TExpr>,
        then: Box<TStmt>,
        other: Option<Box<TStmt>>,
    },
    /// `while ( test ) body`
    While {
        spot: Spot,
        turns: u32,
        test: Box<TExpr>,
        body: Box<TStmt>,
    },
    /// `do body while ( test ) ;`
    DoWhile {
        spot: Spot,
        turns: u32,
        body: Box<TStmt>,
        test: Box<TExpr>,
    },
    /// `for ( first test ; step ) body`
    For {
        spot: Spot,
        turns: u32,
        first: TFirst,
        test: Option<Box<TExpr>>,
        step: Option<Box<TExpr>>,
        body: Box<TStmt>,
    },
    /// `switch ( on ) { parts }`, with `on` promoted to a kind.
    Switch {
        spot: Spot,
        kind: Kind,
        on: Box<TExpr>,
        parts: Seq<TPart>,
    },
    /// `break ;`
    Break {
        spot: Spot,
    },
    /// `continue ;`
    Continue {
        spot: Spot,
    },
    /// `return value ;`, with the value converted to the function's result, or `return ;`.
    Return {
        spot: Spot,
        value: Option<Box<TExpr>>,
    },
    /// Variables are declared.
    Declare {
        spot: Spot,
        list: Seq<TDeclarator>,
    },
}

/// A part of the braces of a `switch`. It stands at its first token.
#[cycle(statements)]
#[derive(Drop)]
pub enum TPart {
    /// `case value :`, with the value in the kind of the switch.
    Case { place: Place, value: i128 },
    /// `default :`
    Default { place: Place },
    /// A statement.
    Does { place: Place, stmt: Box<TStmt> },
}
