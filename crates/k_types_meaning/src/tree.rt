//! The typed tree of a source. It has the shape of the tree of syntax, without parentheses and with each
//! conversion as a node. Names are numbers, and so are functions, strings and loops.
pub mod declaration;
pub mod expression;
pub mod node;
pub mod statement;
pub mod unit;
