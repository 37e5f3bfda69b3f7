//! The code of expressions, emitted instruction by instruction: of their values, used or not, and of their places.
#![tactic(auto)]

mod around;
mod assignment;
mod designated;
mod expression;
mod instructions;
mod library;
mod node;
mod operators;
mod places;

pub use around::Around;
pub use assignment::write;
pub use designated::Designated;
pub use expression::{place, value};
pub use instructions::{above, does, next_number, replace, sets};
