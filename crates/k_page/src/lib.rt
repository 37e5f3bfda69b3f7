//! A profile as one page of HTML that stands alone: the plan, a picture of the contexts, the source with its numbers beside it, and the rows.
#![tactic(auto)]

mod amount;
mod cells;
mod escape;
mod facts;
pub mod laws;
mod lists;
mod markup;
mod picture;
mod prose;
mod source;
mod tiles;
mod whole;

pub use markup::{Attribute, Tag};
pub use prose::Prose;
pub use tiles::Tile;
pub use whole::{large_page, page};
