//! The arguments of a call (C17 6.5.2.2).

use k_num::{Place, Seq, Text};
use k_tree::Expr;

/// A call whose arguments so far are read, and how many levels these have.
#[derive(Drop)]
pub struct Called {
    pub place: Place,
    pub name: Text,
    pub args: Seq<Expr>,
    pub height: usize,
}
