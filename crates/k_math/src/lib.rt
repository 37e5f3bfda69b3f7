//! The functions of `math.h`: the elementary ones as fixed programs over the operations of IEEE 754, and those that are exact or rounded once (C17
//! 7.12, Annex F). No command uses them yet.
//!
//! Every value is the same on every machine: the contract of an elementary function names each operation in its order. None takes memory.
#![tactic(auto)]

mod arcs;
mod circle;
mod doubles;
mod exponential;
mod hyperbolic;
pub mod laws;
mod library;
mod logarithm;
mod pair;
mod powers;
mod reduction;
mod remainder;
mod roots;
mod scaling;
mod series;
mod tables;
mod trigonometric;

pub use library::{
    ElementaryOne, ElementaryPair, ExactPair, RealTest, WholeBy, absolute, elementary,
    elementary_pair, exact_pair, long, positive_difference, real_test, square_root, whole,
};
