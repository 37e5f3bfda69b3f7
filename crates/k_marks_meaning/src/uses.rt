//! What a text does with the variables of its function, so far as a loop around it depends on it.

/// Operators that may be mixed in the reduction of a variable.
#[derive(Clone, Copy, Debug, PartialEq, Eq)]
pub enum Group {
    /// `+ -`
    Sums,
    /// `*`
    Products,
    /// `&`
    Ands,
    /// `|`
    Ors,
    /// `^`
    Xors,
}

/// A variable that is read, and the number of the node that reads it.
#[derive(Clone, Copy, Debug, PartialEq, Eq)]
pub struct Read {
    pub variable: u32,
    pub node: u32,
}

/// An expression statement `s op= e` or `s = s op e`: the number of the variable s, the group of the operator,
/// and the number of the node that reads s.
#[derive(Clone, Copy, Debug, PartialEq, Eq)]
pub struct Reduction {
    pub variable: u32,
    pub group: Group,
    pub read: u32,
}

/// What happens to a variable.
#[derive(Clone, Copy, Debug, PartialEq, Eq)]
pub enum Use {
    /// An expression names it.
    Names(u32),
    /// An expression assigns it.
    Assigns(u32),
    /// A declarator declares it.
    Declares(u32),
    /// An expression statement reduces it.
    Reduces(Reduction),
}
