//! Occurrences of variables, the statements that set them, and loops.

use k_marks_meaning::Group;

/// How a variable occurs.
#[derive(Clone, Copy, Debug, PartialEq, Eq)]
pub enum How {
    /// It is read.
    Reads,
    /// It is the left of `=`.
    Sets,
    /// It is the left of a compound assignment, or the operand of `++` or `--`: it is read and set.
    Changes,
    /// It is the name in its declarator.
    Declares,
    /// It is the variable s of an expression statement `s op= e` or `s = s op e` with an operator of this group: it is read and set.
    Reduces(Group),
}

/// A variable of a function occurs at a node, a declared one at the node of its declaration or `for`.
#[derive(Clone, Copy, Debug, PartialEq, Eq)]
pub struct Occurrence {
    pub variable: u32,
    pub node: u32,
    pub how: How,
}

/// An assignment `v = e` that feeds reads of v, where e does not name v: the first part of a `for`, which feeds those in the `for`, or an expression
/// statement of a block, which feeds those in later statements of the block. These are the reads at nodes behind `node` up to `last`.
#[derive(Clone, Copy, Debug, PartialEq, Eq)]
pub struct Setter {
    pub variable: u32,
    /// The node of the `for` or of the expression statement.
    pub node: u32,
    /// The last node of the `for` or of the block.
    pub last: u32,
}

/// The text of a loop: its nodes are those from its own to the last.
#[derive(Clone, Copy, Debug, PartialEq, Eq)]
pub struct LoopText {
    /// Its number among the loops of the source.
    pub number: u32,
    pub node: u32,
    /// The last node of the first part of a `for`; without one its own node. Behind it stand test, step and body.
    pub head: u32,
    /// The last node of the test of a `for`, which stands behind the head; without one, and of other loops, the head.
    pub test: u32,
    pub last: u32,
    /// The variable that its step counts.
    pub counter: Option<u32>,
    /// It is a `for` of OpenMP's canonical form, so far as the typed tree tells it.
    pub canonical: bool,
}
