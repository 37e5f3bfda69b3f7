//! Tests in parentheses, and the token behind a statement.

use crate::statement::Frame;
use k_num::Box;
use k_tree::Stmt;

/// What comes of a statement that ends, and of the statement around it.
#[derive(Drop)]
pub enum Fitted {
    /// The statement around ends too.
    Whole { stmt: Box<Stmt> },
    /// The statement around has a part of its own to come.
    Part { frame: Frame, stmt: Box<Stmt> },
}
