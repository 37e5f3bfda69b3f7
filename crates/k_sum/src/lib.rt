//! Sums of saved profiles: what many runs of one program come to together. The sum of one run is its profile, and sums are put together in any grouping.
#![tactic(auto)]

mod adding;
mod entries;
mod exits;
pub mod laws;
mod one;
mod sum;
mod writing;

pub use entries::{count_renumbered, renumber};
pub use exits::{Exit, Exits};
pub use one::sum_of;
pub use sum::{Sum, SumFault};
pub use writing::write;
