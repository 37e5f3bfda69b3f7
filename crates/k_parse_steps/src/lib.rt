//! How a source of the whole grammar is read, token by token (C17 6.5 to 6.9): the states of the reading, and how operators
//! bind. The steps from state to state are functions in `specs/`; the code that takes them stands in the crates above, one for
//! expressions, one for declarations, and one for statements and sources. `k_parse` has the laws of the reading of whole lists.
//!
//! The reading keeps what is open on stacks, so that it needs no recursion by the nesting of a source, and it looks at each
//! token once: a token either goes on with the innermost open construct, or ends it and goes on with the next one.
#![tactic(auto)]

pub mod declaration;
pub mod expression;
pub mod level;
pub mod operators;
pub mod parameter;
pub mod reading;
pub mod source;
pub mod stars;
pub mod statement;
pub mod tokens;
pub mod turn;
