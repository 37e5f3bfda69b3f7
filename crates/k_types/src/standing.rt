//! Whether a function may be declared at file scope (C17 6.7p3, 6.7.6.3p15, 6.9p3).
ghost use Rattle.std.specs.Prelude.{◌≡◌, ℕ, List, Some, None, false, option_copied};
ghost use Rattle.k_num.specs.declared.place.Place.{Place};
ghost use Rattle.k_types_meaning.specs.declared.names.Signature.{Signature};
ghost use Rattle.k_types_meaning.specs.Functions as rules;
ghost use Rattle.k_types.specs.Results.{MakesOrRefuses};
ghost use Rattle.k_types_declarations.specs.Objects.{IsTwice};
ghost use Rattle.k_types.specs.Standings.{standing_made};

use crate::signature::is_same_signature;
use k_num::{Place, Text};
use k_types_meaning::{CType, Meaning, Signature, TypeFault};
use std::alloc::Global;

/// Whether a function may be declared where it is.
#[derive(Clone, Copy)]
pub(crate) enum Standing {
    /// It may.
    Stands,
    /// Its name is taken, or it is defined again.
    Taken,
    /// It has no result type, or another type than its name has already.
    Misfits,
}

impl Standing {
    /// The fault of a function that may not be declared.
    pub(crate) fn test(self, alloc: Global, place: Place, name: &str) -> Result<(), TypeFault>
        ensures { (f : Signature) → MakesOrRefuses result f (standing_made self place name.now f) }
    {
        match self {
            Standing::Stands => Ok(()),
            Standing::Taken => Err(twice(alloc, place, name)),
            Standing::Misfits => Err(TypeFault::Kinds(place)),
        }
    }
}

/// The fault of a name that is declared again.
pub(crate) fn twice(alloc: Global, place: Place, name: &str) -> TypeFault
    ensures { IsTwice result place name.now }
{
    match Text::copy_of(alloc, name) {
        Ok(name) => TypeFault::Twice(name, place),
        Err(_) => TypeFault::Memory,
    }
}

/// Whether a function of this signature may be declared where its name means this at file scope. `of` is its result
/// type, if it has one, and `again` says whether this is a definition and an earlier item is one.
pub(crate) fn redeclared(
    signature: &Signature,
    of: &Option<CType>,
    again: bool,
    meaning: Option<&Meaning>,
) -> Standing
    ensures { (p : Place) (x : List ℕ) → standing_made result p x signature.now ≡ rules.function_made p x signature.now again of.now (option_copied meaning.entry) }
{
    match of {
        Some(_) => typed(signature, again, meaning),
        None => untyped(again, meaning),
    }
}

/// Whether a function with a result type may be declared.
fn typed(signature: &Signature, again: bool, meaning: Option<&Meaning>) -> Standing
    ensures { (p : Place) (x : List ℕ) → standing_made result p x signature.now ≡ rules.function_fault p x signature.now again (option_copied meaning.entry) }
{
    match meaning {
        None => Standing::Stands,
        Some(meaning) => typed_where(signature, again, meaning),
    }
}

/// Whether a function with a result type may be declared where its name means this.
fn typed_where(signature: &Signature, again: bool, meaning: &Meaning) -> Standing
    ensures { (p : Place) (x : List ℕ) → standing_made result p x signature.now ≡ rules.function_fault p x signature.now again (Some meaning.now) }
{
    match meaning {
        Meaning::Variable { .. } | Meaning::Object { .. } | Meaning::Library(_) => Standing::Taken,
        Meaning::Function(other) => {
            if again {
                return Standing::Taken;
            }
            if is_same_signature(signature, other) {
                Standing::Stands
            } else {
                Standing::Misfits
            }
        }
    }
}

/// What a function without a result type is.
fn untyped(again: bool, meaning: Option<&Meaning>) -> Standing
    ensures { (p : Place) (x : List ℕ) (f : Signature) → standing_made result p x f ≡ rules.function_made p x f again None (option_copied meaning.entry) }
{
    if again {
        return Standing::Taken;
    }
    match meaning {
        None => Standing::Misfits,
        Some(meaning) => untyped_where(meaning),
    }
}

/// What a function without a result type is where its name means this.
fn untyped_where(meaning: &Meaning) -> Standing
    ensures { (p : Place) (x : List ℕ) (f : Signature) → standing_made result p x f ≡ rules.function_made p x f false None (Some meaning.now) }
{
    match meaning {
        Meaning::Object { .. } | Meaning::Library(_) => Standing::Taken,
        Meaning::Variable { .. } | Meaning::Function(_) => Standing::Misfits,
    }
}
