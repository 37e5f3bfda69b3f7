//! Statements (C17 6.8).

ghost use Rattle.std.specs.Prelude.{◌≡◌};

use crate::tokens::word::Word;
use crate::tree::declaration::Declarator;
use crate::tree::expression::Expr;
use k_num::{Box, Place, Seq};

/// The first part of a `for`.
#[derive(Debug, PartialEq, Eq, Drop)]
pub enum First {
    /// No expression.
    Nothing,
    /// An expression.
    Value(Expr),
    /// A declaration: its specifiers and its declarators.
    Declare(Seq<Word>, Seq<Declarator>),
}

/// A statement, or a declaration in a block. It stands at its first token.
#[cycle(statements)]
#[derive(Debug, PartialEq, Eq, Drop)]
pub enum Stmt {
    /// `value ;`
    Expr {
        place: Place,
        value: Box<Expr>,
    },
    /// `;`
    Empty {
        place: Place,
    },
    /// `{ parts }`
    Block {
        place: Place,
        parts: Seq<Stmt>,
    },
    /// `if ( test ) then`, and `else other` where there is one.
    If {
        place: Place,
        test: Box<Expr>,
        then: Box<Stmt>,
        other: Option<Box<Stmt>>,
    },
    /// `while ( test ) body`
    While {
        place: Place,
        test: Box<Expr>,
        body: Box<Stmt>,
    },
    /// `do body while ( test ) ;`
    DoWhile {
        place: Place,
        body: Box<Stmt>,
        test: Box<Expr>,
    },
    /// `for ( first test ; step ) body`
    For {
        place: Place,
        first: First,
        test: Option<Box<Expr>>,
        step: Option<Box<Expr>>,
        body: Box<Stmt>,
    },
    /// `switch ( on ) { parts }`
    Switch {
        place: Place,
        on: Box<Expr>,
        parts: Seq<Part>,
    },
    /// `break ;`
    Break {
        place: Place,
    },
    /// `continue ;`
    Continue {
        place: Place,
    },
    /// `return value ;` or `return ;`
    Return {
        place: Place,
        value: Option<Box<Expr>>,
    },
    /// `specs list ;`
    Declare {
        place: Place,
        specs: Seq<Word>,
        list: Seq<Declarator>,
    },
}

/// A part of the braces of a `switch`: a label, or a statement. It stands at its first token.
#[cycle(statements)]
#[derive(Debug, PartialEq, Eq, Drop)]
pub enum Part {
    /// `case value :`
    Case { place: Place, value: Box<Expr> },
    /// `default :`
    Default { place: Place },
    /// A statement.
    Does { place: Place, stmt: Box<Stmt> },
}

impl Stmt {
    ghost use Rattle.k_tree.specs.Places.{stmt_place};

    /// Where the statement stands: at its first token.
    pub fn place(&self) -> Place
        ensures { result ≡ stmt_place self.now }
    {
        match self {
            Stmt::Expr { place, .. }
            | Stmt::Empty { place }
            | Stmt::Block { place, .. }
            | Stmt::If { place, .. }
            | Stmt::While { place, .. }
            | Stmt::DoWhile { place, .. }
            | Stmt::For { place, .. }
            | Stmt::Switch { place, .. }
            | Stmt::Break { place }
            | Stmt::Continue { place }
            | Stmt::Return { place, .. }
            | Stmt::Declare { place, .. } => *place,
        }
    }
}
