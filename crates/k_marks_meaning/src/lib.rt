//! What the marks of a typed tree are: the definitions, and the types that they share with the code that makes marks and with runs, which
//! ask only what is marked.
#![tactic(auto)]

mod jumps;
mod uses;

pub use jumps::{Jumps, StatementJumps};
use k_num::Seq;
pub use uses::{Group, Read, Reduction, Use};

/// The marks of a source: by the number of a loop whether it is counted; by the number of an expression or
/// statement whether it is a read whose dependence is broken, and whether it is a statement whose text holds a
/// jump that leaves it.
#[derive(Drop)]
pub struct Marks {
    pub counted: Seq<bool>,
    pub broken: Seq<bool>,
    pub leaves: Seq<bool>,
}
