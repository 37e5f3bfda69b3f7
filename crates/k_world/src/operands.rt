//! Operands by their sorts.
ghost use Rattle.std.specs.Prelude.{◌≡◌, [], ◌∷◌, ℤ, option_map, true};
ghost use Rattle.k_mem.specs.declared.pointer.Pointer.{Pointer};
ghost use Rattle.k_world.specs.Acts.{one_number as one_number_in, two_numbers as two_numbers_in, one_pointer as one_pointer_in, pointer_and_number as pointer_and_number_in, two_pointers as two_pointers_in, one_value as one_value_in, two_values as two_values_in, first_number as first_number_in, number_of, pointer_of};
ghost use Rattle.k_world.specs.Operands.{are_set as are_all_set, is_set, value_in, values_of};

use crate::{Read, Value};
use k_mem::Pointer;

/// Whether each operand is set.
pub fn are_set(reads: &[Read]) -> bool
    ensures { result ≡ are_all_set reads.now }
{
    for read in reads {
        if !read.is_set() {
            return false;
        }
    }
    true
}

impl Value {
    /// The number that it is.
    pub(crate) fn number(self) -> Option<i128>
        ensures { result ≡ number_of self }
    {
        match self {
            Value::Number(number) => Some(number),
            Value::Pointer(_) => None,
        }
    }

    /// The pointer that it is.
    fn pointer(self) -> Option<Pointer>
        ensures { result ≡ pointer_of self }
    {
        match self {
            Value::Number(_) => None,
            Value::Pointer(pointer) => Some(pointer),
        }
    }
}

impl Read {
    /// Whether something is held.
    fn is_set(&self) -> bool
        ensures { result ≡ is_set self.now.slot }
    {
        match self.slot {
            Some(_) => true,
            None => false,
        }
    }

    /// The value that is read.
    fn value(&self) -> Option<Value>
        ensures { result ≡ value_in self.now.slot }
    {
        match self.slot {
            Some(held) => Some(held.value),
            None => None,
        }
    }
}

/// The value of the one operand.
pub fn one_value(reads: &[Read]) -> Option<Value>
    requires { are_all_set reads.now ≡ true }
    ensures { result ≡ one_value_in (values_of reads.now) }
{
    match reads {
        [a] => a.value(),
        _ => None,
    }
}

/// The values of the two operands.
fn two_values(reads: &[Read]) -> Option<(Value, Value)>
    requires { are_all_set reads.now ≡ true }
    ensures { result ≡ two_values_in (values_of reads.now) }
{
    match reads {
        [a, b] => Some((a.value()?, b.value()?)),
        _ => None,
    }
}

/// The number that is the first operand.
pub fn first_number(reads: &[Read]) -> Option<i128>
    requires { are_all_set reads.now ≡ true }
    ensures { result ≡ first_number_in (values_of reads.now) }
{
    match reads {
        [first, ..] => first.value()?.number(),
        [] => None,
    }
}

/// The number that is the one operand.
pub fn one_number(reads: &[Read]) -> Option<i128>
    requires { are_all_set reads.now ≡ true }
    ensures { result ≡ one_number_in (values_of reads.now) }
{
    one_value(reads)?.number()
}

/// The numbers that are the two operands.
pub fn two_numbers(reads: &[Read]) -> Option<(i128, i128)>
    requires { are_all_set reads.now ≡ true }
    ensures { result ≡ two_numbers_in (values_of reads.now) }
{
    let (a, b) = two_values(reads)?;
    Some((a.number()?, b.number()?))
}

/// The pointer that is the one operand.
pub fn one_pointer(reads: &[Read]) -> Option<Pointer>
    requires { are_all_set reads.now ≡ true }
    ensures { result ≡ one_pointer_in (values_of reads.now) }
{
    one_value(reads)?.pointer()
}

/// The pointer and the number that are the two operands.
pub fn pointer_and_number(reads: &[Read]) -> Option<(Pointer, i128)>
    requires { are_all_set reads.now ≡ true }
    ensures { result ≡ pointer_and_number_in (values_of reads.now) }
{
    let (a, b) = two_values(reads)?;
    Some((a.pointer()?, b.number()?))
}

/// The pointer by which a store of a number goes, whether or not both operands are set.
pub fn pointer_to_store(at: Read, a: Read) -> Option<Pointer>
    ensures { result ≡ option_map (λ (s : Pointer × ℤ). s.0) (pointer_and_number_in (values_of (at ∷ a ∷ []))) }
{
    let (at, a) = (at.value()?, a.value()?);
    let (pointer, _) = (at.pointer()?, a.number()?);
    Some(pointer)
}

/// The pointers that are the two operands.
pub fn two_pointers(reads: &[Read]) -> Option<(Pointer, Pointer)>
    requires { are_all_set reads.now ≡ true }
    ensures { result ≡ two_pointers_in (values_of reads.now) }
{
    let (a, b) = two_values(reads)?;
    Some((a.pointer()?, b.pointer()?))
}
