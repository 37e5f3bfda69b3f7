//! Macros.

use crate::tokens::Spelling;
use k_num::Seq;

/// A macro.
#[derive(Drop)]
pub struct Macro {
    pub name: Spelling,
    /// The names of its parameters, if it is used with a list of arguments.
    pub parameters: Option<Seq<Spelling>>,
    pub body: Seq<Chain>,
}

/// A part of a body: what stands between blanks and other parts, with `##` between its operands.
#[derive(Drop)]
pub struct Chain {
    /// Whether blanks or comments stand before it.
    pub spaced: bool,
    pub first: Operand,
    pub more: Seq<Operand>,
}

/// What `##` may stand beside.
#[derive(Drop)]
pub enum Operand {
    Token(Spelling),
    /// The parameter of this number.
    Parameter(usize),
    /// `#` before the parameter of this number.
    Text(usize),
}
