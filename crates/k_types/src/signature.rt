//! The types of functions (C17 6.7.6.3): their results, their parameters, and when two of them are equal.
ghost use Rattle.std.specs.Prelude.{◌≡◌, IfOk};
ghost use Rattle.k_types_meaning.specs.Declarations.{type_or_int};
ghost use Rattle.k_types_meaning.specs.Functions as rules;
ghost use Rattle.k_types_meaning.specs.Units as units;

use k_num::{Kind, NoMemory, Seq};
use k_tree::Head;
use k_types_declarations::Variable;
use k_types_meaning::{CType, Signature};
use k_types_names::{base_of, says_const, starred};
use k_types_objects::copied_type;
use k_types_rules::{are_equal, lent_element};
use std::alloc::Global;

/// The type of a function's result, if what its specifiers and stars name is one.
pub(crate) fn result_type(alloc: Global, head: &Head) -> Option<CType>
    ensures { result ≡ rules.result_type head.now }
{
    match base_of(&head.specs) {
        Some(base) => starred(alloc, says_const(&head.specs), base, head.stars.as_slice()),
        None => None,
    }
}

/// The type of a function's result, and `int` where it has none, since it is refused in any case.
pub(crate) fn result_or_int(alloc: Global, head: &Head) -> CType
    ensures { result ≡ type_or_int (rules.result_type head.now) }
{
    match result_type(alloc, head) {
        Some(of) => of,
        None => CType::Number(Kind::I32),
    }
}

/// Whether the result of a function is `int`.
pub(crate) fn is_int(alloc: Global, head: &Head) -> bool
    ensures { result ≡ units.is_int (rules.result_type head.now) }
{
    match result_type(alloc, head) {
        Some(of) => {
            let is_int = is_same_type(&of, &CType::Number(Kind::I32));
            drop(of);
            is_int
        }
        None => false,
    }
}

/// The types of variables.
pub(crate) fn types_of(alloc: Global, variables: &[Variable]) -> Result<Seq<CType>, NoMemory>
    ensures { IfOk result (λ types. types ≡ rules.variable_types variables.now) }
{
    let mut types = Seq::new(alloc);
    for variable in variables {
        let of = copied_type(alloc, &variable.of)?;
        types.push(of)?;
    }
    Ok(types)
}

/// Whether two types are equal (C17 6.2.7).
pub(crate) fn is_same_type(a: &CType, b: &CType) -> bool
    ensures { result ≡ rules.same_type a.now b.now }
{
    match a {
        CType::Void => matches!(b, CType::Void),
        CType::Number(left) => match b {
            CType::Number(right) => *left == *right,
            _ => false,
        },
        CType::Pointer(left) => match b {
            CType::Pointer(right) => are_equal(lent_element(left), lent_element(right)),
            _ => false,
        },
        CType::Array(count, left) => match b {
            CType::Array(other, right) => {
                *count == *other && are_equal(lent_element(left), lent_element(right))
            }
            _ => false,
        },
    }
}

/// Whether two lists of types are equal.
fn are_same_types(a: &[CType], b: &[CType]) -> bool
    ensures { result ≡ rules.same_types a.now b.now }
{
    let mut left = a;
    let mut right = b;
    while let Some((first, more)) = left.split_first() {
        let Some((other, others)) = right.split_first() else {
            return false;
        };
        if !is_same_type(first, other) {
            return false;
        }
        left = more;
        right = others;
    }
    match right.split_first() {
        None => true,
        Some(_) => false,
    }
}

/// Whether two functions have equal types (C17 6.7.6.3p15).
pub(crate) fn is_same_signature(a: &Signature, b: &Signature) -> bool
    ensures { result ≡ rules.same_signature a.now b.now }
{
    is_same_type(&a.result, &b.result) && are_same_types(a.params.as_slice(), b.params.as_slice())
}
