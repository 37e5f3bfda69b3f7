//! An operand put into the construct that awaits it.

use crate::expression::{Open, Term};

/// What comes of an operand that ends, and of the construct around it.
#[derive(Drop)]
pub enum Plugged {
    /// The construct ends with its operand.
    Whole { term: Term },
    /// The construct needs a token of its own behind its operand.
    Part { around: Open, term: Term },
}
