//! What a record of a run is made of.

use k_ending::End;
use k_mem::Pointer;
use k_num::{Bin, Kind, Seq, Un};

/// The value of an operand or of a step.
#[derive(Clone, Copy, Debug, PartialEq, Eq)]
pub enum Datum {
    /// No value.
    Nothing,
    /// A number.
    Number(i128),
    /// A pointer.
    At(Pointer),
}

/// Where the value of an operand comes from.
#[derive(Clone, Copy, Debug, PartialEq, Eq)]
pub enum Operand {
    /// No operation gave it.
    Fixed(Datum),
    /// The operation of this number gave it.
    From(u64),
}

/// A part of a text that is written. The numbers are those of operands, counted from 0.
#[derive(Drop)]
pub enum Piece {
    /// Bytes as they are.
    Bytes(Seq<u8>),
    /// An operand modulo 256, as a byte.
    Byte(u32),
    /// An operand in decimal, with its sign.
    Decimal(u32),
    /// An operand modulo 2^64, in hexadecimal.
    Hex(u32),
}

/// What a step does with its operands.
#[derive(Drop)]
pub enum Act {
    /// Gives the operand of this number: a move, a load or a store.
    Same(u32),
    /// A binary operation, made in a kind.
    Binary(Bin, Kind),
    /// A unary operation, made in a kind.
    Unary(Un, Kind),
    /// A conversion to a kind.
    Convert(Kind),
    /// Whether a number is other than 0.
    Truth,
    /// A pointer is moved by a number of elements of so many numbers, back where the first is true.
    Offset(bool, u32),
    /// Two pointers are compared.
    PtrCompare(Bin),
    /// How many elements of so many numbers lie between two pointers.
    Distance(u32),
    /// The number that was read.
    Input(i32),
    /// Writes a number modulo 256, as a byte.
    Put,
    /// Writes a text with operands in it.
    Print(Seq<Piece>),
    /// Writes bytes.
    Puts(Seq<u8>),
    /// Calls a function.
    Call,
}

/// An operation of a run. Its last operand is the control source.
#[derive(Drop)]
pub struct Step {
    pub act: Act,
    pub operands: Seq<Operand>,
}

/// A run: its operations in their order, the bytes that it writes, and how it ends.
#[derive(Drop)]
pub struct Record {
    pub steps: Seq<Step>,
    pub output: Seq<u8>,
    pub end: End,
}
