//! The tree of a source, by the grammar's constructs. Parentheses are kept, so that a tree says exactly
//! which tokens it stands for.
pub mod declaration;
pub mod expression;
pub mod statement;
pub mod unit;
