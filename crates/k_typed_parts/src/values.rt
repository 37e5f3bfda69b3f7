//! The numbers that an array begins with (C17 6.7.9).
ghost use Rattle.std.specs.Prelude.{◌≡◌, ◌++◌, pos, IfOk, OnOk};
ghost use Rattle.k_num.specs.Kind.{converted};
ghost use Rattle.k_num.specs.declared.numbers.Kind.TheVariants.{I8};
ghost use Rattle.k_types_meaning.specs.Initialisers.{bytes_from};
ghost use Rattle.k_evaluation.specs.Declarations.{values_from};

use k_num::{Initial, Kind, NoMemory, Seq, convert};
use k_types_meaning::TItem;
use std::alloc::Global;

/// The numbers that an array begins with: those that its strings give.
pub fn values_of(alloc: Global, items: &Seq<TItem>) -> Result<Seq<Initial>, NoMemory>
    ensures { IfOk result (λ values. values ≡ values_from items.now) }
{
    let mut values = Vec::new(alloc);
    for item in items.as_slice() {
        if let TItem::Bytes { element, bytes } = item {
            put_bytes(&mut values, *element, bytes.as_slice())?;
        }
    }
    Ok(Seq::from_vec(values))
}

/// Bytes as signed numbers of 8 bits, for the elements from this one on, behind other numbers.
fn put_bytes(values: &mut Vec<Initial>, from: u32, bytes: &[u8]) -> Result<(), NoMemory>
    ensures { OnOk result (values.new.items ≡ values.old.items ++ bytes_from from bytes.now) }
{
    let mut element = from;
    for byte in bytes {
        values.push(initial(element, *byte))?;
        let Some(next) = element.checked_add(1) else {
            return Err(NoMemory);
        };
        element = next;
    }
    Ok(())
}

/// The number that a byte gives to an element.
fn initial(element: u32, byte: u8) -> Initial
    ensures { result ≡ record { element = element; number = converted I8 (pos byte) } }
{
    Initial {
        element,
        number: convert(Kind::I8, i128::from(byte)),
    }
}
