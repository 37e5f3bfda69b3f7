//! What is known where a line stands.

use crate::rules::Count;
use k_lex_expansion::Macro;
use k_lex_groups::Group;
use k_num::{Seq, Stack};

/// The macros, the `#if`s that are open, the innermost on top, and how much there is.
#[derive(Drop)]
pub struct State {
    pub macros: Seq<Macro>,
    pub opens: Stack<Group>,
    pub count: Count,
}
