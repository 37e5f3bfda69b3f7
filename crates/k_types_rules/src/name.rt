//! Names in expressions (C17 6.5.1p2).
ghost use Rattle.std.specs.Prelude.{◌≡◌, ℕ, List, [], Some};
ghost use Rattle.k_types_meaning.specs.Operands as rules;
ghost use Rattle.k_types_meaning.specs.declared.names.Meaning.TheVariants as meanings;
ghost use Rattle.k_types_rules.specs.Views.{Agrees};

use crate::conversion::at;
use crate::judged::TypedExpr;
use crate::place::place_of;
use crate::view::{lent, told};
use k_num::{Box, Place};
use k_types_meaning::{CType, Meaning, TExpr, TypeFault};
use std::alloc::Global;

/// What a name means stands for it; a function's name stands only where it is called (C17 6.5.1p2).
pub fn named<'a>(
    alloc: Global,
    place: Place,
    meaning: &'a Meaning,
) -> Result<TypedExpr<'a>, TypeFault>
    ensures { (name : List ℕ) → Agrees result [] (rules.named place name (Some meaning.now)) }
{
    match meaning {
        Meaning::Variable { number, of, fixed } => variable(alloc, place, *number, of, *fixed),
        Meaning::Object { number, of, fixed } => object(alloc, place, *number, of, *fixed),
        Meaning::Function(_) | Meaning::Library(_) => Err(TypeFault::Kinds(place)),
    }
}

/// A variable.
fn variable<'a>(
    alloc: Global,
    place: Place,
    variable: u32,
    of: &'a CType,
    fixed: bool,
) -> Result<TypedExpr<'a>, TypeFault>
    ensures { (name : List ℕ) → Agrees result [] (rules.named place name (Some (meanings.Variable variable of.now fixed))) }
{
    let of = lent(of);
    let node = at(place, told(of)?);
    let tree = Box::new(alloc, TExpr::Variable { node, variable })?;
    Ok(TypedExpr {
        tree,
        of,
        place: place_of(of, fixed),
    })
}

/// A file object.
fn object<'a>(
    alloc: Global,
    place: Place,
    object: u32,
    of: &'a CType,
    fixed: bool,
) -> Result<TypedExpr<'a>, TypeFault>
    ensures { (name : List ℕ) → Agrees result [] (rules.named place name (Some (meanings.Object object of.now fixed))) }
{
    let of = lent(of);
    let node = at(place, told(of)?);
    let tree = Box::new(alloc, TExpr::Object { node, object })?;
    Ok(TypedExpr {
        tree,
        of,
        place: place_of(of, fixed),
    })
}
