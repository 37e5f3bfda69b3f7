//! What a conversion says of the text that it writes.

/// How an argument is written (C17 7.21.6.1p4): the letter of its conversion, its flags, its width, which is 0 where none is given, and its precision.
#[derive(Clone, Copy, Debug, PartialEq, Eq)]
pub struct Shape {
    pub conversion: u8,
    pub minus: bool,
    pub plus: bool,
    pub space: bool,
    pub hash: bool,
    pub zero: bool,
    pub width: u32,
    pub precision: Option<u32>,
}

/// What stands before the letter of a conversion (C17 7.21.6.1p7): nothing, or `hh`, `h`, `l`, `ll`, `z`, `j` or `t`.
#[derive(Clone, Copy, Debug, PartialEq, Eq)]
pub enum Length {
    Plain,
    Char,
    Short,
    Long,
    LongLong,
    Size,
    Greatest,
    Difference,
}

/// A conversion, and how many bytes it has behind its `%`. The letter of `%%`, which takes no argument, is `%`.
#[derive(Clone, Copy, Debug, PartialEq, Eq)]
pub struct Conversion {
    pub shape: Shape,
    pub length: Length,
    pub used: usize,
}
