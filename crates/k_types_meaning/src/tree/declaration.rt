//! Typed declarations of variables in a function, and their initialisers (C17 6.7).

use crate::tree::expression::TExpr;
use k_num::{Place, Seq};

/// A variable is declared. It stands where its name stands.
#[derive(Drop)]
pub struct TDeclarator {
    pub place: Place,
    /// Its number among the variables of its function.
    pub variable: u32,
    pub init: TInit,
}

/// With what a declared variable begins.
#[derive(Drop)]
pub enum TInit {
    /// With nothing: it is not set.
    Nothing,
    /// With a value, converted to its kind.
    Value(TExpr),
    /// An array: with zeros but for these elements. Strings are set first, without an operation; then each
    /// other item is stored, in text order.
    Elements(Seq<TItem>),
}

/// An item of the braces of an array, or the string that the array begins with.
#[derive(Drop)]
pub enum TItem {
    /// The bytes of a string, from the element of this number on.
    Bytes {
        element: u32,
        bytes: Seq<u8>,
    },
    /// A value for the element of this number, converted to the array's kind. It stands at its first token.
    Value {
        place: Place,
        element: u32,
        value: TExpr,
    },
}
