//! The block of a function (C17 6.8), token by token, from behind its opening brace.
pub mod clause;

use crate::declaration::Declaration;
use crate::expression::Reading;
use crate::turn::Turn;
use k_num::{Box, Place, Seq, Stack};
use k_tree::{Expr, First, Part, Stmt};

/// A statement of which a part is awaited.
#[derive(Drop)]
pub enum Frame {
    /// `if ( test )`
    Then {
        place: Place,
        test: Box<Expr>,
    },
    /// `if ( test ) then else`
    Else {
        place: Place,
        test: Box<Expr>,
        then: Box<Stmt>,
    },
    /// `while ( test )`
    While {
        place: Place,
        test: Box<Expr>,
    },
    /// `do`
    Do {
        place: Place,
    },
    /// `for ( start test ; step )`
    For {
        place: Place,
        start: Box<First>,
        test: Option<Box<Expr>>,
        step: Option<Box<Expr>>,
    },
    /// `switch ( on ) {`, and some labels and statements.
    Switch {
        place: Place,
        on: Box<Expr>,
        parts: Seq<Part>,
    },
    /// `{` and some statements and declarations.
    Block {
        place: Place,
        parts: Seq<Stmt>,
    },
}

/// What has a test in parentheses.
#[derive(Drop)]
pub enum Tested {
    If { place: Place },
    While { place: Place },
    Switch { place: Place },
    /// `do body while`
    Do { place: Place, body: Box<Stmt> },
}

/// Where the reading of a block stands.
#[derive(Drop)]
pub enum BlockStage {
    /// A statement begins, or in a block a declaration or its end.
    Begins,
    /// Behind a statement.
    Whole {
        stmt: Box<Stmt>,
    },
    /// In a statement that is an expression.
    Value {
        place: Place,
        reading: Box<Reading>,
    },
    /// Before the parenthesis of a test.
    Keyword {
        tested: Tested,
    },
    /// In a test.
    Test {
        tested: Tested,
        reading: Box<Reading>,
    },
    /// Before the semicolon of a statement.
    Semicolon {
        stmt: Box<Stmt>,
    },
    /// Before the parenthesis of a `for`.
    For {
        place: Place,
    },
    /// In the first part of a `for`.
    Start {
        place: Place,
        reading: Box<Reading>,
    },
    /// In the declaration of a `for`.
    Declares {
        place: Place,
        declaration: Box<Declaration>,
    },
    /// In the second part of a `for`.
    Second {
        place: Place,
        start: Box<First>,
        reading: Box<Reading>,
    },
    /// In the third part of a `for`.
    Third {
        place: Place,
        start: Box<First>,
        test: Option<Box<Expr>>,
        reading: Box<Reading>,
    },
    /// Before the opening brace of a `switch`.
    Braces {
        place: Place,
        on: Box<Expr>,
    },
    /// In the value of a `case`.
    Case {
        place: Place,
        reading: Box<Reading>,
    },
    /// Behind `default`.
    Default {
        place: Place,
    },
    /// In the value of a `return`.
    Return {
        place: Place,
        reading: Box<Reading>,
    },
    /// In a declaration of a block.
    Local {
        place: Place,
        declaration: Box<Declaration>,
    },
}

/// What has been read of a function's block: its statements and declarations so far, and the statements that are open.
#[derive(Drop)]
pub struct Body {
    pub parts: Seq<Stmt>,
    pub frames: Stack<Frame>,
    pub stage: BlockStage,
}

/// What a token does in the block of a function. It is done with its closing brace.
pub type Stepped = Turn<Body, Seq<Stmt>>;
