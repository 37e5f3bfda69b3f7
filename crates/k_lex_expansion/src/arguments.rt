//! Arguments of a call.

use crate::tokens::Listed;
use k_num::Seq;

/// An argument: its tokens, and what they are replaced by, where that is asked for.
#[derive(Drop)]
pub struct Argument {
    pub written: Seq<Listed>,
    pub expanded: Seq<Listed>,
}
