//! What is known at a place in a function.

use k_num::{Place, Seq};
use k_types_meaning::CType;
use k_types_names::Scopes;
use std::marker::Model;

/// A variable of a function. It stands where its name stands in its declarator, and a parameter at its first
/// token.
#[derive(Drop)]
pub struct Variable {
    pub place: Place,
    pub of: CType,
}

impl Model for Variable {
    ghost use Rattle.k_types_meaning.specs.Statements as statements;

    ghost Value = { statements.Variable };

    ghost view = { λ v. record { place = v.place; of = v.of } };
}

/// What is known at a place in a function: what names mean, the variables so far, and those of them to which `&`
/// is applied so far, by their numbers, as often as it is.
#[derive(Drop)]
pub struct Known {
    pub names: Scopes,
    pub variables: Seq<Variable>,
    pub taken: Seq<u32>,
}
