//! The types that are named in casts and behind `sizeof` (C17 6.5.3.4, 6.5.4, 6.7.7).
ghost use Rattle.std.specs.Prelude.{◌≡◌, ℕ, List, []};
ghost use Rattle.k_types_meaning.specs.Operands as operands;
ghost use Rattle.k_types_meaning.specs.Specifiers as rules;
ghost use Rattle.k_types_rules.specs.Views.{type_option, typed, Agrees};

use k_num::{Place, Seq};
use k_tree::Word;
use k_types_meaning::{Base, TypeFault};
use k_types_names::{base_of, says_const, says_static};
use k_types_rules::{ElementView, TypeView, TypedExpr, cast_to_named, sizeof_named};
use std::alloc::Global;

/// `sizeof` of a type.
#[tactic(auto, unfolding(k_types_meaning::specs::Operands::sizeof_type_rule))]
pub(crate) fn sizeof_type_rule<'a>(
    alloc: Global,
    place: Place,
    specs: &Seq<Word>,
    stars: &Seq<bool>,
) -> Result<TypedExpr<'a>, TypeFault>
    ensures { Agrees result [] (operands.sizeof_type_rule place specs.now stars.now) }
{
    sizeof_named(alloc, place, named_type(specs, stars))
}

/// A cast.
#[tactic(auto, unfolding(k_types_meaning::specs::Operands::cast_rule))]
pub(crate) fn cast_rule<'a>(
    alloc: Global,
    place: Place,
    specs: &Seq<Word>,
    stars: &Seq<bool>,
    of: TypedExpr<'a>,
) -> Result<TypedExpr<'a>, TypeFault>
    ensures { (t : List ℕ) → Agrees result t (operands.cast_rule place specs.now stars.now (typed of.entry t)) }
{
    cast_to_named(alloc, place, named_type(specs, stars), of)
}

/// The type that specifiers and stars name, if they name one.
fn named_type<'a>(specs: &Seq<Word>, stars: &Seq<bool>) -> Option<TypeView<'a>>
    ensures { type_option result ≡ rules.type_named specs.now stars.now }
{
    if says_static(specs) {
        return None;
    }
    match base_of(specs) {
        None => None,
        Some(base) => starred(says_const(specs), base, stars.as_slice()),
    }
}

/// The type of stars behind a base, of which `fixed` says whether it is const.
fn starred<'a>(fixed: bool, base: Base, stars: &[bool]) -> Option<TypeView<'a>>
    ensures { type_option result ≡ rules.starred fixed base stars.now }
{
    match base {
        Base::Void => match stars {
            [] => Some(TypeView::Void),
            _ => None,
        },
        Base::Of(kind) => match stars {
            [] => Some(TypeView::Number(kind)),
            [_] => Some(TypeView::Pointer(ElementView {
                kind,
                dims: &[],
                each: 1,
                fixed,
            })),
            _ => None,
        },
    }
}
