//! The typed tree of a source as a whole (C17 6.9).

use crate::tree::statement::TStmt;
use crate::types::TType;
use k_num::{Initial, Place, Seq, Text};

/// A variable of a function: a parameter or a declared variable. It stands where its declarator stands, a
/// parameter at its first token.
#[derive(Clone, Copy, Debug, PartialEq, Eq)]
pub struct TVariable {
    pub place: Place,
    /// The type of its value; of an array that of the pointer that it gives.
    pub of: TType,
    /// How many elements its object has, or 0 where it is a register and has no object.
    pub elements: u32,
}

/// A file object. It stands where its declarator stands.
#[derive(Drop)]
pub struct TObject {
    pub place: Place,
    /// The type of its value; of an array that of the pointer that it gives.
    pub of: TType,
    pub elements: u32,
    /// The numbers with which elements begin, in the order of the elements. All others begin with 0.
    pub first: Seq<Initial>,
}

/// A string that is an object.
#[derive(Drop)]
pub struct TString {
    pub place: Place,
    /// Its bytes without the 0 behind them.
    pub bytes: Seq<u8>,
}

/// A defined function.
#[derive(Drop)]
pub struct TFunc {
    pub name: Text,
    /// Where its name stands.
    pub place: Place,
    /// Where its closing brace stands.
    pub close: Place,
    /// The count of the nodes of its definition in the tree of syntax.
    pub nodes: u32,
    /// The count of the loops of the functions before it.
    pub loops: u32,
    /// The type of its result.
    pub result: TType,
    /// How many of the variables, the first ones, are parameters.
    pub params: u32,
    /// Its variables in text order.
    pub variables: Seq<TVariable>,
    pub body: Seq<TStmt>,
}

/// A source.
#[derive(Drop)]
pub struct TUnit {
    /// The file objects in text order.
    pub objects: Seq<TObject>,
    /// The strings that are objects, in text order.
    pub strings: Seq<TString>,
    /// The defined functions in text order.
    pub functions: Seq<TFunc>,
    /// The number of main among the functions.
    pub main: u32,
    /// The count of the typed expressions and statements.
    pub nodes: u32,
    /// The count of the loops.
    pub loops: u32,
}
