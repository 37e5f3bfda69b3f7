//! The syntax of a source: its tokens, and trees of syntax with parentheses kept.
#![tactic(auto)]

pub mod laws;
mod operators;
mod tokens;
mod tree;

pub use operators::{compound_operator_of, operator_of};
pub use tokens::mark::Mark;
pub use tokens::word::Word;
pub use tokens::{Token, TokenKind};
pub use tree::declaration::{Declarator, Init, Param, Params};
pub use tree::expression::Expr;
pub use tree::statement::{First, Part, Stmt};
pub use tree::unit::{Head, Item, Unit};
