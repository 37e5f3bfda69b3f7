//! What a text does with variables, with file objects and with functions, so far as a loop around it depends on it.

use k_marks_meaning::Group;

/// What an expression may name, by its number: a variable of its function, or a file object.
#[derive(Clone, Copy)]
pub enum Scalar {
    /// The variable of this number in its function.
    Variable(u32),
    /// The file object of this number.
    Object(u32),
}

/// Operators and choices that may be mixed in the reduction of a scalar.
#[derive(Clone, Copy)]
pub enum WideGroup {
    /// The operators of a group.
    By(Group),
    /// The least of all.
    Least,
    /// The greatest of all.
    Greatest,
}

/// A scalar that is read, and the number of the node that reads it.
#[derive(Clone, Copy)]
pub struct ScalarRead {
    pub scalar: Scalar,
    pub node: u32,
}

/// A statement that reduces a scalar: the group, and the number of a node by which it reads the scalar.
#[derive(Clone, Copy)]
pub struct Reducing {
    pub scalar: Scalar,
    pub group: WideGroup,
    pub read: u32,
}

/// What a text does with a scalar, or with a function.
#[derive(Clone, Copy)]
pub enum Occurrence {
    /// An expression names it.
    Names(Scalar),
    /// An expression assigns it.
    Assigns(Scalar),
    /// A declarator declares the variable of this number.
    Declares(u32),
    /// A statement reduces it.
    Reduces(Reducing),
    /// `&` is applied to the file object of this number.
    Addresses(u32),
    /// The function of this number is called.
    Calls(u32),
}
