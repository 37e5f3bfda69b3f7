//! The variables of a function as a run has to know them: a pointer, and a number to which `&` is never applied, is
//! a register, and all others are objects (C17 6.2.4, 6.5.3.2).
ghost use Rattle.std.specs.Prelude.{◌≡◌, ◌*◌, ℕ, nat_eq, IfOk, OnOk};
ghost use Rattle.std.specs.HashSet.{contains};
ghost use Rattle.k_types_meaning.specs.Functions as rules;
ghost use Rattle.k_types_meaning.specs.Types.{elements};
ghost use Rattle.k_types.specs.Variables.{variable_told};

use k_num::{NoMemory, Seq};
use k_types_declarations::Variable;
use k_types_meaning::{CType, Element, TVariable};
use k_types_rules::{lent, told};
use std::alloc::Global;
use std::collections::HashSet;

/// The variables of a function, where `&` is applied to those of these numbers.
pub(crate) fn variables_of(
    alloc: Global,
    taken: &[u32],
    variables: &[Variable],
) -> Result<Seq<TVariable>, NoMemory>
    ensures { IfOk result (λ list. list ≡ rules.variables_from 0 taken.now variables.now) }
{
    let taken = set_of(alloc, taken)?;
    let mut list = Seq::new(alloc);
    for (index, variable) in variables.iter().enumerate() {
        let Ok(number) = u32::try_from(index) else {
            return Err(NoMemory);
        };
        list.push(told_variable(variable, taken.contains(&number))?)?;
    }
    Ok(list)
}

/// The set of some numbers.
fn set_of(alloc: Global, numbers: &[u32]) -> Result<HashSet<u32>, NoMemory>
    ensures { IfOk result (λ set. (n : ℕ) → contains nat_eq set n ≡ rules.has_number numbers.now n) }
{
    let mut set = HashSet::new(alloc);
    for number in numbers {
        set.insert(*number)?;
    }
    Ok(set)
}

/// A variable as a run has to know it; `taken` says whether `&` is applied to it.
fn told_variable(variable: &Variable, taken: bool) -> Result<TVariable, NoMemory>
    ensures { IfOk result (λ known. known ≡ variable_told variable.now taken) }
{
    let of = told(lent(&variable.of))?;
    let elements = object_elements(&variable.of, taken)?;
    Ok(TVariable {
        place: variable.place,
        of,
        elements,
    })
}

/// How many elements the object of a variable has, and 0 where it is a register.
fn object_elements(of: &CType, taken: bool) -> Result<u32, NoMemory>
    ensures { IfOk result (λ n. n ≡ rules.object_elements of.now taken) }
{
    match of {
        CType::Void | CType::Pointer(_) => Ok(0),
        CType::Number(_) => Ok(if taken { 1 } else { 0 }),
        CType::Array(count, element) => array_elements(*count, element),
    }
}

/// How many numbers an array of so many elements has. More than can be counted are want of memory.
fn array_elements(items: u32, element: &Element) -> Result<u32, NoMemory>
    ensures { IfOk result (λ n. n ≡ items * elements element.now.dims) }
{
    let Some(all) = u64::from(items).checked_mul(element.dims.each()) else {
        return Err(NoMemory);
    };
    match u32::try_from(all) {
        Ok(all) => Ok(all),
        Err(_) => Err(NoMemory),
    }
}
