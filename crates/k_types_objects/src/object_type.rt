//! The type of a declarator (C17 6.7.6).
ghost use Rattle.std.specs.Prelude.{◌≡◌, Some, IfOk};
ghost use Rattle.k_types_meaning.specs.Declarations as rules;
ghost use Rattle.k_types_objects.specs.ObjectTypes.{array_of, is_no_file_type, may_have, pointer_of};

use crate::specifier::Saying;
use k_num::{Box, Kind, NoMemory, Seq};
use k_tree::Declarator;
use k_types_meaning::{Base, CType, Dims, Element};
use std::alloc::Global;

/// The type of a declarator with these sizes, if it has one: at file scope none where it is a pointer.
pub fn declared_type(
    alloc: Global,
    file: bool,
    saying: &Saying,
    stars: &[bool],
    dims: &[u32],
) -> Result<Option<Box<CType>>, NoMemory>
    ensures { IfOk result (λ of. of ≡ rules.no_pointer file (rules.object_type saying.now.fixed saying.now.names_base stars.now dims.now)) }
{
    let of = object_type(alloc, saying.fixed(), saying.base(), stars, dims)?;
    Ok(at_scope(file, of))
}

/// The type, which at file scope is no pointer.
fn at_scope(file: bool, of: Option<Box<CType>>) -> Option<Box<CType>>
    ensures { result ≡ rules.no_pointer file of }
{
    let of = of?;
    if file && is_outside(of.get()) {
        return None;
    }
    Some(of)
}

/// Whether no object at file scope has a type.
fn is_outside(of: &CType) -> bool
    ensures { result ≡ is_no_file_type of.now }
{
    match of {
        CType::Void | CType::Pointer(_) => true,
        CType::Number(_) | CType::Array(_, _) => false,
    }
}

/// The type of an object of a base with stars and sizes: no void, and one `*` at most, behind a kind and without
/// dimensions.
fn object_type(
    alloc: Global,
    fixed: bool,
    base: Option<Base>,
    stars: &[bool],
    dims: &[u32],
) -> Result<Option<Box<CType>>, NoMemory>
    ensures { IfOk result (λ of. of ≡ rules.object_type fixed base stars.now dims.now) }
{
    let Some(base) = base else {
        return Ok(None);
    };
    match base {
        Base::Void => Ok(None),
        Base::Of(kind) => of_kind(alloc, fixed, kind, stars, dims),
    }
}

/// The type of an object of a kind with stars and sizes.
fn of_kind(
    alloc: Global,
    fixed: bool,
    kind: Kind,
    stars: &[bool],
    dims: &[u32],
) -> Result<Option<Box<CType>>, NoMemory>
    ensures { IfOk result (λ of. of ≡ rules.object_type fixed (Some (Base.Of kind)) stars.now dims.now) }
{
    match stars {
        [] => array(alloc, fixed, kind, dims),
        [_] => pointer(alloc, fixed, kind, dims),
        _ => Ok(None),
    }
}

/// Numbers of a kind in these dimensions.
fn array(
    alloc: Global,
    fixed: bool,
    kind: Kind,
    dims: &[u32],
) -> Result<Option<Box<CType>>, NoMemory>
    ensures { IfOk result (λ of. of ≡ array_of fixed kind dims.now) }
{
    let Some((count, more)) = dims.split_first() else {
        let of = Box::new(alloc, CType::Number(kind))?;
        return Ok(Some(of));
    };
    let dims = Dims::of(Seq::copy_of(alloc, more)?)?;
    let of = Box::new(alloc, CType::Array(*count, Element { kind, dims, fixed }))?;
    Ok(Some(of))
}

/// A pointer to a number of a kind, which has no dimensions.
fn pointer(
    alloc: Global,
    fixed: bool,
    kind: Kind,
    dims: &[u32],
) -> Result<Option<Box<CType>>, NoMemory>
    ensures { IfOk result (λ of. of ≡ pointer_of fixed kind dims.now) }
{
    let Some(_) = dims.split_first() else {
        let dims = Dims::none(alloc);
        let of = Box::new(alloc, CType::Pointer(Element { kind, dims, fixed }))?;
        return Ok(Some(of));
    };
    Ok(None)
}

/// Whether a declarator has a type, whatever its sizes are.
pub fn has_type(file: bool, saying: &Saying, declarator: &Declarator) -> bool
    ensures { result ≡ rules.has_type file saying.now declarator.now }
{
    let Some(base) = saying.base() else {
        return false;
    };
    match base {
        Base::Void => false,
        Base::Of(_) => may_be(
            file,
            declarator.stars.as_slice(),
            declarator.dims.is_empty(),
        ),
    }
}

/// Whether an object may have these stars and dimensions.
fn may_be(file: bool, stars: &[bool], is_plain: bool) -> bool
    ensures { result ≡ may_have file stars.now is_plain }
{
    match stars {
        [] => true,
        [_] => !file && is_plain,
        _ => false,
    }
}

/// Whether an object is const itself: a pointer where const follows its `*`.
pub fn is_fixed(fixed: bool, stars: &[bool]) -> bool
    ensures { result ≡ rules.object_fixed fixed stars.now }
{
    match stars.split_first() {
        None => fixed,
        Some((star, _)) => *star,
    }
}

/// A copy of a type.
pub fn copied_type(alloc: Global, of: &CType) -> Result<CType, NoMemory>
    ensures { IfOk result (λ copy. copy ≡ of.now) }
{
    match of {
        CType::Void => Ok(CType::Void),
        CType::Number(kind) => Ok(CType::Number(*kind)),
        CType::Pointer(element) => Ok(CType::Pointer(copied_element(alloc, element)?)),
        CType::Array(count, element) => {
            Ok(CType::Array(*count, copied_element(alloc, element)?))
        }
    }
}

/// A copy of an element.
fn copied_element(alloc: Global, element: &Element) -> Result<Element, NoMemory>
    ensures { IfOk result (λ copy. copy ≡ element.now) }
{
    let dims = Dims::copy_of(alloc, &element.dims)?;
    Ok(Element {
        kind: element.kind,
        dims,
        fixed: element.fixed,
    })
}
