//! What an operation does.

use k_num::{Bin, Kind, Seq, Un};

/// A part of a format: bytes that are written as they are, or how the next argument is written.
#[derive(Drop)]
pub enum Chunk {
    /// Bytes.
    Bytes(Seq<u8>),
    /// `%c`: the argument modulo 256, as a byte.
    Byte,
    /// `%d`, `%i`, `%u`: in decimal, with its sign.
    Decimal,
    /// `%x`: modulo 2^64, in hexadecimal.
    Hex,
}

/// What an output operation writes.
#[derive(Drop)]
pub enum Out {
    /// Its argument as a byte.
    Byte,
    /// These bytes and a newline.
    Line(Seq<u8>),
    /// A format, with its arguments.
    Format(Seq<Chunk>),
}

/// What an operation does with its operands. An operand of the wrong sort, as a pointer where a number is due,
/// counts as one that is not set.
#[derive(Drop)]
pub enum Act {
    /// A binary operation, made in a kind.
    Binary(Bin, Kind),
    /// A unary operation, made in a kind.
    Unary(Un, Kind),
    /// A conversion to a kind.
    Convert(Kind),
    /// The operand as it is.
    Move,
    /// A pointer is moved, forward or back, by a number of elements of so many numbers.
    Offset { minus: bool, scale: u32 },
    /// Two pointers are compared.
    PtrCompare(Bin),
    /// How many elements of so many numbers lie between two pointers.
    PtrDistance { scale: u32 },
    /// The element that a pointer points to is read.
    Load,
    /// The element that a pointer points to is set.
    Store,
    /// `getchar`
    Input,
    /// `putchar`, `puts` or `printf`
    Output(Out),
    /// A condition is tested.
    Test,
    /// A function is called.
    Call,
}

/// An act, with what an output writes lent.
#[derive(Clone, Copy)]
pub enum ActRef<'a> {
    /// A binary operation, made in a kind.
    Binary(Bin, Kind),
    /// A unary operation, made in a kind.
    Unary(Un, Kind),
    /// A conversion to a kind.
    Convert(Kind),
    /// The operand as it is.
    Move,
    /// A pointer is moved, forward or back, by a number of elements of so many numbers.
    Offset { minus: bool, scale: u32 },
    /// Two pointers are compared.
    PtrCompare(Bin),
    /// How many elements of so many numbers lie between two pointers.
    PtrDistance { scale: u32 },
    /// The element that a pointer points to is read.
    Load,
    /// The element that a pointer points to is set.
    Store,
    /// `getchar`
    Input,
    /// `putchar`, `puts` or `printf`
    Output(&'a Out),
    /// A condition is tested.
    Test,
    /// A function is called.
    Call,
}
