//! The node of a typed expression.
ghost use Rattle.std.specs.Prelude.{◌≡◌};
ghost use Rattle.k_types_meaning.specs.Conversions.{node_of};

use crate::tree::expression::{Node, TExpr};

/// The node of a typed expression.
pub fn node_of(e: &TExpr) -> Node
    ensures { result ≡ node_of e.now }
{
    match e {
        TExpr::Number { node, .. }
        | TExpr::Str { node, .. }
        | TExpr::Object { node, .. }
        | TExpr::Variable { node, .. }
        | TExpr::Index { node, .. }
        | TExpr::Call { node, .. }
        | TExpr::Getchar { node, .. }
        | TExpr::Putchar { node, .. }
        | TExpr::Puts { node, .. }
        | TExpr::Printf { node, .. }
        | TExpr::Post { node, .. }
        | TExpr::Pre { node, .. }
        | TExpr::Address { node, .. }
        | TExpr::Deref { node, .. }
        | TExpr::Plus { node, .. }
        | TExpr::Unary { node, .. }
        | TExpr::Convert { node, .. }
        | TExpr::Cast { node, .. }
        | TExpr::Binary { node, .. }
        | TExpr::Both { node, .. }
        | TExpr::Either { node, .. }
        | TExpr::Forward { node, .. }
        | TExpr::Onto { node, .. }
        | TExpr::Back { node, .. }
        | TExpr::PtrCompare { node, .. }
        | TExpr::PtrDistance { node, .. }
        | TExpr::Cond { node, .. }
        | TExpr::Assign { node, .. }
        | TExpr::AssignBy { node, .. }
        | TExpr::Comma { node, .. } => *node,
    }
}
