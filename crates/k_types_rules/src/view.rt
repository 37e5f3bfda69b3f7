//! Types as expressions are judged by: the dimensions are lent by the declarations that name them.
ghost use Rattle.std.specs.Prelude.{◌≡◌, ◌*◌, IfOk, IfSome};
ghost use Rattle.k_num.specs.Kind.{size as kind_size};
ghost use Rattle.k_types_meaning.specs.Types.{decayed as decayed_type, number_kind, pointed, same_kind, same_element, equal_element, size_of, told as told_type, pointer_to, elements, as_type};
ghost use Rattle.k_types_rules.specs.Views.{element_of, element_option, type_of};

use crate::element::ElementView;
use k_num::{Kind, NoMemory, bytes};
use k_types_meaning::{CType, Element, TType, Target, part};

/// A type, with the dimensions of its element lent.
#[derive(Clone, Copy)]
pub enum TypeView<'a> {
    /// `void`
    Void,
    /// A whole number of a kind.
    Number(Kind),
    /// A pointer to an element.
    Pointer(ElementView<'a>),
    /// An array of so many elements.
    Array(u32, ElementView<'a>),
}

/// A type, lent.
pub fn lent<'a>(of: &'a CType) -> TypeView<'a>
    ensures { type_of result ≡ of.now }
{
    match of {
        CType::Void => TypeView::Void,
        CType::Number(kind) => TypeView::Number(*kind),
        CType::Pointer(element) => TypeView::Pointer(lent_element(element)),
        CType::Array(count, element) => TypeView::Array(*count, lent_element(element)),
    }
}

/// An element, lent.
pub fn lent_element<'a>(element: &'a Element) -> ElementView<'a>
    ensures { element_of result ≡ element.now }
{
    ElementView {
        kind: element.kind,
        dims: element.dims.as_slice(),
        each: element.dims.each(),
        fixed: element.fixed,
    }
}

/// The kind of a number.
pub fn kind_of(of: TypeView<'_>) -> Option<Kind>
    ensures { result ≡ number_kind (type_of of.entry) }
{
    match of {
        TypeView::Number(kind) => Some(kind),
        TypeView::Void | TypeView::Pointer(_) | TypeView::Array(_, _) => None,
    }
}

/// The element of a pointer or of an array.
pub fn pointed_by<'a>(of: TypeView<'a>) -> Option<ElementView<'a>>
    ensures { element_option result ≡ pointed (type_of of.entry) }
{
    match of {
        TypeView::Pointer(element) => Some(element),
        TypeView::Array(_, element) => Some(element),
        TypeView::Void | TypeView::Number(_) => None,
    }
}

/// The type, with an array as the pointer that it gives.
pub fn decayed<'a>(of: TypeView<'a>) -> TypeView<'a>
    ensures { type_of result ≡ decayed_type (type_of of.entry) }
{
    match of {
        TypeView::Array(_, element) => TypeView::Pointer(element),
        other => other,
    }
}

/// What an element is as an expression: a number, or an array within the array.
pub fn as_expression<'a>(element: ElementView<'a>) -> Result<TypeView<'a>, NoMemory>
    ensures { IfOk result (λ of. type_of of ≡ as_type element.entry.kind element.entry.dims.now element.entry.fixed) }
{
    let Some((count, dims)) = element.dims.split_first() else {
        return Ok(TypeView::Number(element.kind));
    };
    let each = part(element.each, *count, dims)?;
    let within = ElementView {
        kind: element.kind,
        dims,
        each,
        fixed: element.fixed,
    };
    Ok(TypeView::Array(*count, within))
}

/// Whether two kinds are one.
pub fn is_same_kind(a: Kind, b: Kind) -> bool
    ensures { result ≡ same_kind a b }
{
    a == b
}

/// Whether two elements are equal, const or not.
pub fn are_alike(a: ElementView<'_>, b: ElementView<'_>) -> bool
    ensures { result ≡ same_element (element_of a.entry) (element_of b.entry) }
{
    is_same_kind(a.kind, b.kind) && a.dims == b.dims
}

/// Whether two elements are equal, const among it.
pub fn are_equal(a: ElementView<'_>, b: ElementView<'_>) -> bool
    ensures { result ≡ equal_element (element_of a.entry) (element_of b.entry) }
{
    are_alike(a, b) && (if a.fixed { b.fixed } else { !b.fixed })
}

/// What a run knows of a pointer to an element. More elements than can be counted are want of memory.
pub fn told_pointer(element: ElementView<'_>) -> Result<TType, NoMemory>
    ensures { IfOk result (λ of. of ≡ pointer_to (element_of element.entry)) }
{
    let Ok(elements) = u32::try_from(element.each) else {
        return Err(NoMemory);
    };
    Ok(TType::Pointer(Target {
        kind: element.kind,
        elements,
    }))
}

/// What a run knows of a type.
pub fn told(of: TypeView<'_>) -> Result<TType, NoMemory>
    ensures { IfOk result (λ known. known ≡ told_type (type_of of.entry)) }
{
    match of {
        TypeView::Void => Ok(TType::Void),
        TypeView::Number(kind) => Ok(TType::Number(kind)),
        TypeView::Pointer(element) => told_pointer(element),
        TypeView::Array(_, element) => told_pointer(element),
    }
}

/// The size of an object of a type in bytes, where it is held.
pub fn size(of: TypeView<'_>) -> Option<u64>
    ensures { IfSome result (λ n. n ≡ size_of (type_of of.entry)) }
{
    match of {
        TypeView::Void => Some(0),
        TypeView::Number(kind) => Some(bytes(kind)),
        TypeView::Pointer(_) => Some(8),
        TypeView::Array(items, element) => size_of_array(items, element),
    }
}

/// The size of an array of so many elements, where it is held.
fn size_of_array(items: u32, element: ElementView<'_>) -> Option<u64>
    ensures { IfSome result (λ n. n ≡ items * (elements element.entry.dims.now * kind_size element.entry.kind)) }
{
    let each = element.each.checked_mul(bytes(element.kind))?;
    u64::from(items).checked_mul(each)
}
