//! Typed trees: what a source means once its names and types are settled, and the rules by which a tree
//! of syntax has a typed tree or a fault (C17 6.2 to 6.9).
#![tactic(auto)]

mod dims;
mod fault;
pub mod laws;
mod names;
mod tree;
mod types;

pub use dims::{Dims, part};
pub use fault::TypeFault;
pub use names::{Library, Meaning, Signature};
pub use tree::declaration::{TDeclarator, TInit, TItem};
pub use tree::expression::{Change, Node, Piece, TExpr, Written};
pub use tree::node::node_of;
pub use tree::statement::{Spot, TFirst, TPart, TStmt};
pub use tree::unit::{TFunc, TObject, TString, TUnit, TVariable};
pub use types::{Base, CType, Element, TType, Target};
