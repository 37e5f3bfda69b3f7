//! What variables, registers and operands hold.

use k_mem::Pointer;

/// A value: a number or a pointer.
#[derive(Clone, Copy, Debug, PartialEq, Eq)]
pub enum Value {
    /// A number.
    Number(i128),
    /// A pointer.
    Pointer(Pointer),
}

/// A value, and the number of the operation that gave it. A constant was given by none.
#[derive(Clone, Copy, Debug, PartialEq, Eq)]
pub struct Held {
    pub value: Value,
    pub source: Option<u64>,
}

/// An operand as an operation reads it: what it holds, if anything, and whether the dependence is broken.
#[derive(Clone, Copy, Debug, PartialEq, Eq)]
pub struct Read {
    pub slot: Option<Held>,
    pub broken: bool,
}
