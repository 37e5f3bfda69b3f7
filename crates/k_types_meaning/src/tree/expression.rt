//! Typed expressions (C17 6.5).

use crate::types::TType;
use k_num::{Bin, Box, Kind, Place, Seq, Un};

/// What each typed expression has: its number among the expressions and statements of the source, in text
/// order and parents first; its place; and the type of its value.
#[derive(Clone, Copy, Debug, PartialEq, Eq)]
pub struct Node {
    pub number: u32,
    pub place: Place,
    pub of: TType,
}

/// How `printf` writes an argument.
#[derive(Clone, Copy, Debug, PartialEq, Eq)]
pub enum Written {
    /// `%c`: the byte of this number.
    Byte,
    /// `%d`, `%i`, `%u`: in decimal, with its sign.
    Decimal,
    /// `%x`: in hexadecimal, of its kind without sign.
    Hex,
}

/// A part of a format: bytes that are written as they are, or the place of the next argument.
#[derive(Drop)]
pub enum Piece {
    /// Bytes.
    Bytes(Seq<u8>),
    /// The next argument.
    Argument(Written),
}

/// What a compound assignment, `++` or `--` makes of the old value and of its right operand.
#[derive(Clone, Copy, Debug, PartialEq, Eq)]
pub enum Change {
    /// An operation on numbers, made in a kind. The old value and the right operand are converted first, of a
    /// shift the right operand to its own promoted kind, and the result is converted back.
    Number(Bin, Kind),
    /// The pointer is moved forward.
    Forward,
    /// The pointer is moved back.
    Back,
}

/// A typed expression.
#[derive(Drop)]
pub enum TExpr {
    /// A number: an integer constant, a character constant, `sizeof`, or one of these in another kind.
    Number {
        node: Node,
        value: i128,
    },
    /// A string that is an object: the first element of the string of this number.
    Str {
        node: Node,
        string: u32,
        bytes: Seq<u8>,
    },
    /// The file object of this number: the element that it is, or the first element of its array.
    Object {
        node: Node,
        object: u32,
    },
    /// The variable of this number in its function: a register, the element that it is, or the first
    /// element of its array.
    Variable {
        node: Node,
        variable: u32,
    },
    /// `base [ index ]`: the element, or the first element of the array within an array.
    Index {
        node: Node,
        base: Box<TExpr>,
        index: Box<TExpr>,
    },
    /// A call of the function of this number. Its arguments are converted to the parameters' types.
    Call {
        node: Node,
        function: u32,
        args: Seq<TExpr>,
    },
    /// `getchar()`
    Getchar {
        node: Node,
    },
    /// `putchar(of)`, with `of` converted to `int`.
    Putchar {
        node: Node,
        of: Box<TExpr>,
    },
    /// `puts(of)`, with `of` a string.
    Puts {
        node: Node,
        of: Box<TExpr>,
    },
    /// `printf`: the parts of its format, and one argument for each that writes one, converted.
    Printf {
        node: Node,
        format: Seq<Piece>,
        args: Seq<TExpr>,
    },
    /// `of ++`, `of --`
    Post {
        node: Node,
        change: Change,
        of: Box<TExpr>,
    },
    /// `++ of`, `-- of`
    Pre {
        node: Node,
        change: Change,
        of: Box<TExpr>,
    },
    /// `& of`
    Address {
        node: Node,
        of: Box<TExpr>,
    },
    /// `* of`: the element, or the first element of the array within an array.
    Deref {
        node: Node,
        of: Box<TExpr>,
    },
    /// `+ of`, with `of` promoted.
    Plus {
        node: Node,
        of: Box<TExpr>,
    },
    /// `- ~ !`, made in a kind, with `of` converted to it.
    Unary {
        node: Node,
        op: Un,
        kind: Kind,
        of: Box<TExpr>,
    },
    /// A conversion of a number to the kind of this node that the source does not write.
    Convert {
        node: Node,
        of: Box<TExpr>,
    },
    /// A cast that the source writes: to the kind of this node, to `void`, or of a pointer to its own type.
    Cast {
        node: Node,
        of: Box<TExpr>,
    },
    /// An operation on numbers, made in a kind, with both operands converted: of a shift each to its own
    /// promoted kind.
    Binary {
        node: Node,
        op: Bin,
        kind: Kind,
        left: Box<TExpr>,
        right: Box<TExpr>,
    },
    /// `left && right`
    Both {
        node: Node,
        left: Box<TExpr>,
        right: Box<TExpr>,
    },
    /// `left || right`
    Either {
        node: Node,
        left: Box<TExpr>,
        right: Box<TExpr>,
    },
    /// `left + right` of a pointer and a number.
    Forward {
        node: Node,
        left: Box<TExpr>,
        right: Box<TExpr>,
    },
    /// `left + right` of a number and a pointer.
    Onto {
        node: Node,
        left: Box<TExpr>,
        right: Box<TExpr>,
    },
    /// `left - right` of a pointer and a number.
    Back {
        node: Node,
        left: Box<TExpr>,
        right: Box<TExpr>,
    },
    /// A comparison of two pointers.
    PtrCompare {
        node: Node,
        op: Bin,
        left: Box<TExpr>,
        right: Box<TExpr>,
    },
    /// `left - right` of two pointers.
    PtrDistance {
        node: Node,
        left: Box<TExpr>,
        right: Box<TExpr>,
    },
    /// `test ? then : other`, with both arms converted to the kind of this node.
    Cond {
        node: Node,
        test: Box<TExpr>,
        then: Box<TExpr>,
        other: Box<TExpr>,
    },
    /// `left = right`, with `right` converted to the kind of `left`.
    Assign {
        node: Node,
        left: Box<TExpr>,
        right: Box<TExpr>,
    },
    /// `left op= right`, with `right` not converted, but for a number.
    AssignBy {
        node: Node,
        change: Change,
        left: Box<TExpr>,
        right: Box<TExpr>,
    },
    /// `left , right`
    Comma {
        node: Node,
        left: Box<TExpr>,
        right: Box<TExpr>,
    },
}
