//! The kinds of whole numbers of C, its operators on them, and why an operation may have no value.

/// A kind of whole number: signed or unsigned, of 8, 16, 32 or 64 bits. In C they are `signed char`,
/// `unsigned char`, `short`, `unsigned short`, `int`, `unsigned`, `long` and `unsigned long`.
#[derive(Clone, Copy, Debug, PartialEq, Eq, Hash)]
pub enum Kind {
    I8,
    U8,
    I16,
    U16,
    I32,
    U32,
    I64,
    U64,
}

/// The binary operators of C17 6.5.5 to 6.5.14. The last eight give 0 or 1.
#[derive(Clone, Copy, Debug, PartialEq, Eq, Hash)]
pub enum Bin {
    Add,
    Sub,
    Mul,
    Div,
    Rem,
    And,
    Or,
    Xor,
    Shl,
    Shr,
    Lt,
    Le,
    Gt,
    Ge,
    Eq,
    Ne,
    LogAnd,
    LogOr,
}

/// The unary operators `-`, `~` and `!` of C17 6.5.3.3.
#[derive(Clone, Copy, Debug, PartialEq, Eq, Hash)]
pub enum Un {
    Neg,
    Complement,
    Not,
}

/// Why an operation has no value: C leaves it undefined, and the profile stops there.
#[derive(Clone, Copy, Debug, PartialEq, Eq, Hash)]
pub enum NumTrap {
    /// The kind is signed and doesn't hold the exact result; for `%` it doesn't hold the quotient.
    Overflow,
    /// The divisor is 0.
    DivideByZero,
    /// The right operand of a shift is negative or not below the width, or a left shift in a signed kind is of
    /// a negative number or has an exact result that the kind doesn't hold.
    Shift,
}
