//! Names in expressions (C17 6.5.1p2).
ghost use Rattle.std.specs.Prelude.{◌≡◌, []};
ghost use Rattle.k_types_meaning.specs.Operands as rules;
ghost use Rattle.k_types_rules.specs.Views.{Agrees};
ghost use Rattle.k_types_expressions.specs.Results.{IsUnknown};

use k_num::{Place, Text};
use k_types_meaning::TypeFault;
use k_types_names::Scopes;
use k_types_rules::{TypedExpr, named};
use std::alloc::Global;

/// A name.
#[tactic(auto, unfolding(k_types_meaning::specs::Operands::name_rule))]
pub(crate) fn name_rule<'a>(
    alloc: Global,
    names: &'a Scopes,
    place: Place,
    name: &Text,
) -> Result<TypedExpr<'a>, TypeFault>
    ensures { Agrees result [] (rules.name_rule names.now place name.now) }
{
    match names.meaning(name) {
        None => Err(unknown(alloc, place, name)),
        Some(meaning) => named(alloc, place, meaning),
    }
}

/// The fault of a name that is not known.
pub(crate) fn unknown(alloc: Global, place: Place, name: &Text) -> TypeFault
    ensures { IsUnknown result place name.now }
{
    match Text::copy_of(alloc, name.as_str()) {
        Ok(name) => TypeFault::Unknown(name, place),
        Err(_) => TypeFault::Memory,
    }
}
