//! The calls of functions that neither the source nor the library defines (C17 6.9p5).
ghost use Rattle.std.specs.Prelude.{◌≡◌, ◌||◌, is_some, map};
ghost use Rattle.k_types_calls.specs.Noting.{seen};
ghost use Rattle.k_types_meaning.specs.Names.{library, meaning_in};
ghost use Rattle.k_types_meaning.specs.Units as rules;
ghost use Rattle.k_types.specs.Results.{Tests, IsUndefined};

use crate::defined::Defined;
use k_num::{Place, Text};
use k_tree::Unit;
use k_types_calls::{Call, calls_of};
use k_types_meaning::TypeFault;
use k_types_names::is_library;
use std::alloc::Global;

/// The first call of a source whose function neither the source nor the library defines is a fault.
pub(crate) fn test_calls(alloc: Global, defined: &Defined, unit: &Unit) -> Result<(), TypeFault>
    requires { defined.now ≡ rules.defined_by unit.now }
    ensures { Tests result (rules.call_faults unit.now) }
{
    let calls = calls_of(alloc, unit)?;
    test_each(alloc, defined, calls.as_slice())
}

/// The first of these calls whose function neither the source nor the library defines is a fault.
fn test_each(alloc: Global, defined: &Defined, calls: &[Call<'_>]) -> Result<(), TypeFault>
    ensures { Tests result (rules.all_faults (map (rules.undefined_call defined.now) (map seen calls.now))) }
{
    for call in calls {
        if !is_defined(defined, call.name.as_str()) {
            return Err(undefined(alloc, call.place, call.name));
        }
    }
    Ok(())
}

/// Whether the source or the library defines a function of this name.
fn is_defined(defined: &Defined, name: &str) -> bool
    ensures { result ≡ (rules.is_name defined.now name.now || is_some (meaning_in library name.now)) }
{
    defined.has(name) || is_library(name)
}

/// The fault of a call of a function that is not defined.
fn undefined(alloc: Global, place: Place, name: &Text) -> TypeFault
    ensures { IsUndefined result place name.now }
{
    match Text::copy_of(alloc, name.as_str()) {
        Ok(name) => TypeFault::NotDefined(name, place),
        Err(_) => TypeFault::Memory,
    }
}
