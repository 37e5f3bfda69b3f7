//! Prototypes (C17 6.7.6.3).
ghost use Rattle.k_types_meaning.specs.Functions as rules;
ghost use Rattle.k_types.specs.Heads.{IsFile};
ghost use Rattle.k_types.specs.Functions.{Declares};

use crate::defined::Defined;
use crate::head::{judge_head, name_function, standing_of};
use k_num::Place;
use k_tree::Head;
use k_types_declarations::Known;
use k_types_meaning::TypeFault;
use std::alloc::Global;

/// A prototype: its parameters are judged, then its name and type. The name is known behind it.
pub(crate) fn prototype(
    alloc: Global,
    defined: &Defined,
    known: &mut Known,
    place: Place,
    head: &Head,
) -> Result<(), TypeFault>
    requires { IsFile known.old.names }
    ensures { Declares result known.new.names (rules.prototype_judged defined.now known.old.names place head.now) (rules.names_behind_head defined.now known.old.names head.now) }
{
    let signature = judge_head(alloc, false, defined, known, head)?;
    known.names.close();
    let standing = standing_of(alloc, &known.names, false, head, &signature);
    name_function(alloc, &mut known.names, head, signature)?;
    standing.test(alloc, place, head.name.as_str())
}
