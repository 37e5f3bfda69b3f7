//! The entries of a sum in the order of its file, which does not depend on the order and the grouping in which runs were put together.
#![tactic(auto)]

mod batch;
mod checking;
mod key;
pub mod laws;
mod levels;
mod ordering;
mod placing;

pub use checking::{are_in_order, compare};
pub use ordering::in_order;
