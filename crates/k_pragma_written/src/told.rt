//! What is told.

use k_num::{Seq, Text};

/// What the tree of syntax tells of a source's functions and loops.
#[derive(Drop)]
pub struct Written {
    /// Of each defined function, in text order, the names of its variables: its parameters, and then those that it declares, in text order.
    pub names: Seq<Seq<Text>>,
    /// Of each loop, in text order, whether it is a `for` whose first part, test and step are of one variable, which stands bare there.
    pub bare: Seq<bool>,
}
