//! What to do with each loop of a run, in one word with its reason, where a plan for a team of threads picks loops; and
//! numbers that a table tells of loops. No command uses it yet.
#![tactic(auto)]

mod facts;
mod figures;
mod gathering;
mod judging;
pub mod laws;
mod placing;
mod standing;
mod walk;
mod word;

pub use facts::{Condition, Failing, LoopFacts, Named, Turns};
pub use figures::{is_uneven, share, tenths};
pub use gathering::standings;
pub use judging::verdict_of;
pub use standing::Standing;
pub use walk::verdicts;
pub use word::{FirstPairs, FirstShared, InCommon, LoopVerdict, Verdict};
