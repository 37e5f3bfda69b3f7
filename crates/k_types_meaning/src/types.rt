//! Types: those of the language, by which a source is judged, and what a run has to know of them.

use crate::dims::Dims;
use k_num::Kind;

/// What a pointer points to, and what an array is made of: numbers of a kind, in as many dimensions as
/// `dims` has sizes. `fixed` says that they are const.
#[derive(Drop)]
pub struct Element {
    pub kind: Kind,
    pub dims: Dims,
    pub fixed: bool,
}

/// A type of an expression or of a declared object (C17 6.2.5).
#[derive(Drop)]
pub enum CType {
    /// `void`
    Void,
    /// A whole number of a kind.
    Number(Kind),
    /// A pointer to an element.
    Pointer(Element),
    /// An array of so many elements.
    Array(u32, Element),
}

/// What one element of a pointer is to a run: `elements` numbers of a kind.
#[derive(Clone, Copy, Debug, PartialEq, Eq)]
pub struct Target {
    pub kind: Kind,
    pub elements: u32,
}

/// What a run has to know of a type. An array is the pointer to its first element that it gives.
#[derive(Clone, Copy, Debug, PartialEq, Eq)]
pub enum TType {
    /// No value.
    Void,
    /// A number of a kind.
    Number(Kind),
    /// A pointer.
    Pointer(Target),
}

/// What the specifiers of a declaration name: `void`, or the numbers of a kind.
#[derive(Clone, Copy, Debug, PartialEq, Eq)]
pub enum Base {
    /// `void`
    Void,
    /// Numbers of a kind.
    Of(Kind),
}
