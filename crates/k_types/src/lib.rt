//! The typing of functions and of whole sources: the typed tree of a source, or its first fault (C17 6.7.6.3, 6.9).
#![tactic(auto)]

mod defined;
mod entry;
mod function;
mod head;
mod item;
mod parameter;
mod prototype;
mod signature;
mod source;
mod standing;
mod undefined;
mod variables;

pub use k_types_meaning::{
    Change, Node, Piece, Spot, TDeclarator, TExpr, TFirst, TFunc, TInit, TItem, TObject, TPart,
    TStmt, TString, TType, TUnit, TVariable, Target, TypeFault, Written,
};
pub use source::check;
