//! The rules of constants (C17 6.4.4, 6.4.5).
ghost use Rattle.std.specs.Prelude.{◌≡◌, [], ◌+◌, length, IfSome, IfOk};
ghost use Rattle.k_types_meaning.specs.Conversions as spec;
ghost use Rattle.k_types_meaning.specs.Operands as rules;
ghost use Rattle.k_types_meaning.specs.declared.types.TType.TheVariants as ttypes;
ghost use Rattle.k_types_meaning.specs.declared.tree.expression.TExpr.TheVariants as trees;
ghost use Rattle.k_types_rules.specs.Views.{Agrees};

use crate::conversion::at;
use crate::element::ElementView;
use crate::judged::TypedExpr;
use crate::view::{TypeView, told_pointer};
use k_num::{Box, Kind, NoMemory, Place, Seq};
use k_types_meaning::{TExpr, TType, TypeFault};
use std::alloc::Global;

/// An integer constant (C17 6.4.4.1p5).
#[tactic(auto, unfolding(k_types_meaning::specs::Operands::number_rule))]
pub fn number_rule<'a>(
    alloc: Global,
    place: Place,
    kind: Kind,
    value: u64,
) -> Result<TypedExpr<'a>, TypeFault>
    ensures { Agrees result [] (rules.number_rule place kind value) }
{
    let tree = number(alloc, place, kind, i128::from(value))?;
    Ok(TypedExpr {
        tree,
        of: TypeView::Number(kind),
        place: None,
    })
}

/// A character constant (C17 6.4.4.4p10).
#[tactic(auto, unfolding(k_types_meaning::specs::Operands::char_rule))]
pub fn char_rule<'a>(alloc: Global, place: Place, value: i32) -> Result<TypedExpr<'a>, TypeFault>
    ensures { Agrees result [] (rules.char_rule place value) }
{
    let tree = number(alloc, place, Kind::I32, i128::from(value))?;
    Ok(TypedExpr {
        tree,
        of: TypeView::Number(Kind::I32),
        place: None,
    })
}

/// A number of a kind.
pub(crate) fn number(
    alloc: Global,
    place: Place,
    kind: Kind,
    value: i128,
) -> Result<Box<TExpr>, NoMemory>
    ensures { IfOk result (λ tree. tree ≡ trees.Number (spec.at place (ttypes.Number kind)) value) }
{
    let node = at(place, TType::Number(kind));
    Box::new(alloc, TExpr::Number { node, value })
}

/// A string, which is an array of char with a 0 behind its bytes (C17 6.4.5p6).
#[tactic(auto, unfolding(k_types_meaning::specs::Operands::string_rule))]
pub fn string_rule<'a>(
    alloc: Global,
    place: Place,
    bytes: &Seq<u8>,
) -> Result<TypedExpr<'a>, TypeFault>
    ensures { Agrees result [] (rules.string_rule place bytes.now) }
{
    let Some(items) = items_of(bytes) else {
        return Err(TypeFault::Memory);
    };
    let element = ElementView {
        kind: Kind::I8,
        dims: &[],
        each: 1,
        fixed: false,
    };
    let node = at(place, told_pointer(element)?);
    let bytes = Seq::copy_of(alloc, bytes.as_slice())?;
    let tree = Box::new(
        alloc,
        TExpr::Str {
            node,
            string: 0,
            bytes,
        },
    )?;
    Ok(TypedExpr {
        tree,
        of: TypeView::Array(items, element),
        place: None,
    })
}

/// How many elements the array of a string has, where that is held.
fn items_of(bytes: &Seq<u8>) -> Option<u32>
    ensures { IfSome result (λ items. items ≡ length bytes.now + 1) }
{
    let Ok(length) = u32::try_from(bytes.len()) else {
        return None;
    };
    length.checked_add(1)
}
