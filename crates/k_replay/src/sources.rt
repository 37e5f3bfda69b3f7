//! Whether operations can be given.
ghost use Rattle.std.specs.Prelude.{◌≡◌, List, [], map, IfOk, OnOk, slice_get, length, ◌<◌};
ghost use Rattle.k_replay_record.specs.Serial.{operand_value};
ghost use Rattle.k_replay.specs.Plays.{are_given as are_given_in, can_give as can_give_in, given_in, is_fired as is_fired_in, is_held as is_held_in, is_number as is_number_of};

use k_num::NoMemory;
use k_replay_record::{Datum, Operand, Step};

/// Whether an operation is fired.
fn is_fired(values: &[Option<Datum>], k: u64) -> bool
    ensures { result ≡ is_fired_in values.now k }
{
    given(values, k).is_some()
}

/// The value of an operation that is fired.
pub(crate) fn given(values: &[Option<Datum>], k: u64) -> Option<Datum>
    ensures { result ≡ given_in values.now k }
{
    match values.get(k as usize) {
        Some(value) => *value,
        None => None,
    }
}

/// Whether the operations that these operands come from are fired.
fn are_given(values: &[Option<Datum>], operands: &[Operand]) -> bool
    ensures { result ≡ are_given_in values.now operands.now }
{
    for operand in operands {
        if let Operand::From(k) = operand {
            if !is_fired(values, *k) {
                return false;
            }
        }
    }
    true
}

/// Whether it is this operation.
fn is_number(k: u64, held: &Option<u64>) -> bool
    ensures { result ≡ is_number_of k held.now }
{
    match held {
        Some(j) => *j == k,
        None => false,
    }
}

/// Whether a worker holds an operation.
fn is_held(held: &[Option<u64>], k: u64) -> bool
    ensures { result ≡ is_held_in held.now k }
{
    held.iter().any(|h| is_number(k, h))
}

/// Whether an operation can be given: its sources are fired, it is not, and no worker holds it.
pub(crate) fn can_give(
    steps: &[Step],
    held: &[Option<u64>],
    values: &[Option<Datum>],
    k: u64,
) -> bool
    ensures { result ≡ can_give_in steps.now held.now values.now k }
{
    match steps.get(k as usize) {
        Some(step) => {
            are_given(values, step.operands.as_slice()) && !is_fired(values, k) && !is_held(held, k)
        }
        None => false,
    }
}

/// The value of an operand.
fn operand(values: &[Option<Datum>], operand: &Operand) -> Datum
    ensures { result ≡ operand_value (given_in values.now) operand.now }
{
    match operand {
        Operand::Fixed(value) => *value,
        Operand::From(k) => match given(values, *k) {
            Some(value) => value,
            None => Datum::Nothing,
        },
    }
}

/// Puts the values of operands in place of those that stand there.
pub(crate) fn read(
    values: &[Option<Datum>],
    operands: &[Operand],
    read: &mut Vec<Datum>,
) -> Result<(), NoMemory>
    ensures { OnOk result (read.new.items ≡ map (operand_value (given_in values.now)) operands.now) }
{
    read.clear();
    for from in operands {
        read.push(operand(values, from))?;
    }
    Ok(())
}
