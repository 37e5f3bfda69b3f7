//! An expression up to the mark that closes it.

use crate::expression::Reading;
use crate::turn::Turn;
use k_num::Box;
use k_tree::Expr;

/// What a token does in an expression that a mark closes. It is done with that mark.
pub type Read = Turn<Box<Reading>, Box<Expr>>;

/// What a token does in an expression that may be left out, and that a mark closes.
pub type Maybe = Turn<Box<Reading>, Option<Box<Expr>>>;

/// A mark that closes an expression.
#[derive(Clone, Copy, Debug, PartialEq, Eq)]
pub enum Closer {
    /// `]`
    Bracket,
    /// `)`
    Paren,
    /// `;`
    Semicolon,
    /// `:`
    Colon,
}
