//! Self-parallelism as exact fractions, the rows of a tree, which tell what the instances of each region come to together, and its
//! contexts, which tell the same of the instances with each list of regions from the root.
#![tactic(auto)]

mod context;
mod counts;
mod euclid;
mod fraction;
mod grouping;
mod item;
pub mod laws;
mod row;
mod sums;
mod tree_rows;

pub use context::{Context, ContextFault, ContextList, root_work};
pub use counts::count_children;
pub use fraction::Frac;
pub use grouping::{add_contexts, contexts, items_of};
pub use item::{Item, occurring_entries, sort_by_region};
pub use row::Row;
pub use tree_rows::{rows, rows_of};
