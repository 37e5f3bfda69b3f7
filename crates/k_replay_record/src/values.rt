//! The values of operands, by their sorts.
ghost use Rattle.std.specs.Prelude.{◌≡◌};
ghost use Rattle.k_replay_record.specs.Acts.{datum_at as datum_in, number_at as number_in, number_of, pointer_at as pointer_in, pointer_of};

use crate::Datum;
use k_mem::Pointer;

impl Datum {
    /// The number that it is.
    fn number(self) -> Option<i128>
        ensures { result ≡ number_of self }
    {
        match self {
            Datum::Number(number) => Some(number),
            _ => None,
        }
    }

    /// The pointer that it is.
    fn pointer(self) -> Option<Pointer>
        ensures { result ≡ pointer_of self }
    {
        match self {
            Datum::At(pointer) => Some(pointer),
            _ => None,
        }
    }
}

/// The value of an operand.
pub fn datum_at(values: &[Datum], n: usize) -> Datum
    ensures { result ≡ datum_in values.now n }
{
    match values.get(n) {
        Some(value) => *value,
        None => Datum::Nothing,
    }
}

/// The number that an operand is.
pub fn number_at(values: &[Datum], n: usize) -> Option<i128>
    ensures { result ≡ number_in values.now n }
{
    datum_at(values, n).number()
}

/// The pointer that an operand is.
pub fn pointer_at(values: &[Datum], n: usize) -> Option<Pointer>
    ensures { result ≡ pointer_in values.now n }
{
    datum_at(values, n).pointer()
}
