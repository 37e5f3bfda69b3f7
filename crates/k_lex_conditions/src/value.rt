//! What an operand of a condition is worth, and what is open while a condition is read.

use k_num::{Kind, Text};
use k_tree::Mark;

/// A number and its kind: a signed or an unsigned one of 64 bits (C17 6.10.1p4). Where an operation had no value there is none.
#[derive(Clone, Copy, Debug, PartialEq, Eq)]
pub struct Value {
    pub kind: Kind,
    pub number: Option<i128>,
}

/// A name that stands for a number in every condition, though it's no macro.
#[derive(Debug, PartialEq, Eq, Drop)]
pub struct Known {
    pub name: Text,
    pub value: Value,
}

/// What is open before an operand, which is made of parts of this type.
#[derive(Clone, Copy)]
pub enum Open<T> {
    /// `left op`, an operator of this rank.
    Infix { op: Mark, rank: u8, left: T },
    /// `op`, before its operand.
    Prefix { op: Mark },
    /// `(`
    Paren,
    /// `test ?`
    Test { test: T },
    /// `test ? chosen :`
    Other { test: T, chosen: T },
}
