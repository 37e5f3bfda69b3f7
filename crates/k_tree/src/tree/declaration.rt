//! Declarators, parameters and initialisers (C17 6.7).

use crate::tokens::word::Word;
use crate::tree::expression::Expr;
use k_num::{Place, Seq, Text};

/// A declarator: the stars before the name, the name, the dimensions behind it, and the initialiser.
/// `stars` says of each `*` whether `const` follows it; a dimension may be left out. It stands where its
/// name stands.
#[derive(Debug, PartialEq, Eq, Drop)]
pub struct Declarator {
    pub place: Place,
    pub stars: Seq<bool>,
    pub name: Text,
    pub dims: Seq<Option<Expr>>,
    pub init: Option<Init>,
}

/// An initialiser. It stands at its first token.
#[derive(Debug, PartialEq, Eq, Drop)]
pub enum Init {
    /// An expression.
    One {
        place: Place,
        value: Expr,
    },
    /// Initialisers in braces; `comma` says whether a comma stands before the closing brace.
    List {
        place: Place,
        items: Seq<Init>,
        comma: bool,
    },
}

/// A parameter, with or without a name. It stands at its first token.
#[derive(Debug, PartialEq, Eq, Drop)]
pub struct Param {
    pub place: Place,
    pub specs: Seq<Word>,
    pub stars: Seq<bool>,
    pub name: Option<Text>,
    pub dims: Seq<Option<Expr>>,
}

/// What stands between the parentheses of a function's head.
#[derive(Debug, PartialEq, Eq, Drop)]
pub enum Params {
    /// Nothing.
    Empty,
    /// `void` alone.
    Void,
    /// Parameters, at least one.
    List(Seq<Param>),
}
