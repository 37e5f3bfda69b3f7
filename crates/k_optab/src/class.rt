//! The classes of operations, by which latencies are given.

/// The class of an operation.
#[derive(Clone, Copy, Debug, PartialEq, Eq, Hash)]
pub enum Class {
    /// A value goes on unchanged: an assignment to a register, a `return`, the value of a `?:`.
    Move,
    /// A conversion between two kinds of numbers.
    Conv,
    /// Every operator but those of `Mul` and `Div`.
    Simple,
    /// A multiplication.
    Mul,
    /// A division or a remainder.
    Div,
    /// A read of an element of memory.
    Load,
    /// A write to an element of memory.
    Store,
    /// A condition is tested.
    Test,
    /// A call of a function of the program.
    Call,
    /// `getchar`.
    Input,
    /// `putchar`, `printf` or `puts`.
    Output,
    /// A `switch` chooses a label by its value.
    Select,
}
