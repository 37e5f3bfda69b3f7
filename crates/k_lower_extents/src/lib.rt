//! How many instructions each expression and each statement of a typed program has once it is lowered, counted in one walk before code is
//! emitted, so that jumps forward know where they lead.
#![tactic(auto)]

mod changes;
mod declaration;
mod expression;
mod extent;
mod loops;
mod rests;
mod statement;
mod sums;
mod switches;
mod table;
mod unit;

pub use expression::{ExpressionExtent, extent_of};
pub use extent::{Extent, NumberedExtent};
pub use rests::{part_rests_at, rests_at};
pub use table::extent_at;
pub use unit::{Extents, extents_of};
