//! The function where a program starts (C17 5.1.2.2.1).
ghost use Rattle.std.specs.Prelude.{◌≡◌};
ghost use Rattle.k_types_meaning.specs.Functions.{has_none, params_of};
ghost use Rattle.k_types_meaning.specs.Units as rules;
ghost use Rattle.k_types.specs.Results.{Tests};

use crate::signature::is_int;
use k_tree::{Head, Item, Params, Unit};
use k_types_meaning::TypeFault;
use std::alloc::Global;

/// A source that defines no function main of result `int` and without parameters has a fault at its end.
pub(crate) fn test_main(alloc: Global, unit: &Unit) -> Result<(), TypeFault>
    ensures { Tests result (rules.main_faults unit.now) }
{
    if has_main(alloc, unit.items.as_slice()) {
        Ok(())
    } else {
        Err(TypeFault::NoMain(unit.end))
    }
}

/// Whether an item defines main.
fn has_main(alloc: Global, items: &[Item]) -> bool
    ensures { result ≡ rules.has_main items.now }
{
    for item in items {
        if is_main(alloc, item) {
            return true;
        }
    }
    false
}

/// Whether an item defines main.
fn is_main(alloc: Global, item: &Item) -> bool
    ensures { result ≡ rules.is_main item.now }
{
    match item {
        Item::Function { head, .. } => {
            head.name.as_str() == "main" && is_int(alloc, head) && has_no_params(head)
        }
        Item::Prototype { .. } | Item::Objects { .. } => false,
    }
}

/// Whether a head has no parameters.
fn has_no_params(head: &Head) -> bool
    ensures { result ≡ has_none (params_of head.now.params) }
{
    match &head.params {
        Params::Empty | Params::Void => true,
        Params::List(list) => match list.as_slice().split_first() {
            None => true,
            Some(_) => false,
        },
    }
}
