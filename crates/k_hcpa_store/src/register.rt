//! What a register holds, in few bytes: a number of `int` takes 32 bits, so that an operation on ints needs no arithmetic beyond 64 bits.
ghost use Rattle.std.specs.Prelude.{◌≡◌, IfSome, None, Some};
ghost use Rattle.k_world.specs.declared.value.Value.TheVariants.{Number};
ghost use Rattle.k_world.specs.Acts.{in_one, number_of as number_meant, pointer_of as pointer_meant};
ghost use Rattle.k_world.specs.Operands.{source_in as source_meant};
ghost use Rattle.k_hcpa_store.specs.Slots.{CanKeep, held_from, held_of, source_of, value_of, wide};

use k_mem::Pointer;
use k_world::{Held, Value};

/// A value, or none, as a register keeps it. A number may stand in any form that has it: only what is meant counts.
#[derive(Clone, Copy)]
pub enum Slot {
    /// No value.
    Unset,
    Int(i32),
    Long(i64),
    /// A number by its lower and its upper 64 bits.
    Wide { low: u64, high: u64 },
    Pointer { object: u64, offset: u64 },
}

/// A register: its value, and by which operation it was given. Of operation n it keeps n + 1, and 0 where none gave it.
#[derive(Clone, Copy)]
pub struct Register {
    pub slot: Slot,
    pub source: u64,
}

/// 2^64.
const HIGH: u128 = 1 << 64;

/// What a register holds.
#[inline(always)]
pub fn held_in(register: &Register) -> Option<Held>
    ensures held { result ≡ held_of register.now }
    ensures keeps { CanKeep (source_meant result) }
{
    match value_in(&register.slot) {
        Some(value) => Some(Held {
            value,
            source: source_in(register.source),
        }),
        None => None,
    }
}

/// The operation of which a register keeps this.
#[inline(always)]
fn source_in(kept: u64) -> Option<u64>
    ensures source { result ≡ source_of kept }
    ensures keeps { CanKeep result }
{
    if kept == 0 { None } else { Some(kept - 1) }
}

/// What a register keeps of an operation.
#[inline(always)]
pub fn source_kept(source: Option<u64>) -> u64
    requires { CanKeep source }
    ensures { source_of result ≡ source }
{
    match source {
        Some(number) => number + 1,
        None => 0,
    }
}

/// The value that a slot keeps.
#[inline(always)]
pub fn value_in(slot: &Slot) -> Option<Value>
    ensures { result ≡ value_of slot.now }
{
    match slot {
        Slot::Unset => None,
        Slot::Int(number) => Some(Value::Number(i128::from(*number))),
        Slot::Long(number) => Some(Value::Number(i128::from(*number))),
        Slot::Wide { low, high } => Some(Value::Number(wide_number(*low, *high))),
        Slot::Pointer { object, offset } => Some(Value::Pointer(Pointer {
            object: *object,
            offset: *offset,
        })),
    }
}

/// The number of 128 bits by its lower and its upper half.
#[tactic(auto, unfolding(crate::specs::Slots::wide))]
#[inline(always)]
fn wide_number(low: u64, high: u64) -> i128
    ensures { result ≡ wide low high }
{
    (u128::from(high) * HIGH + u128::from(low)).cast_signed()
}

/// The register that holds this.
#[inline(always)]
pub fn register_of(held: Option<Held>) -> Register
    requires { CanKeep (source_meant held) }
    ensures { held_of result ≡ held }
{
    match held {
        Some(held) => Register {
            slot: slot_of(held.value),
            source: source_kept(held.source),
        },
        None => Register {
            slot: Slot::Unset,
            source: 0,
        },
    }
}

/// The register that holds this, which no operation gave.
#[inline(always)]
pub fn without_source(slot: Slot) -> Register
    ensures { held_of result ≡ held_from None (value_of slot) }
{
    Register { slot, source: 0 }
}

/// The slot that keeps a value.
#[inline(always)]
pub fn slot_of(value: Value) -> Slot
    ensures { value_of result ≡ Some value }
{
    match value {
        Value::Number(number) => number_slot(number),
        Value::Pointer(pointer) => Slot::Pointer {
            object: pointer.object,
            offset: pointer.offset,
        },
    }
}

/// The slot that keeps a number.
#[inline(always)]
pub fn number_slot(number: i128) -> Slot
    ensures { value_of result ≡ Some (Number number) }
{
    match int_in(number) {
        Some(int) => int_slot(&int),
        None => match long_in(number) {
            Some(long) => long_slot(&long),
            None => wide_slot(number),
        },
    }
}

/// The slot that keeps an int.
#[inline(always)]
pub fn int_slot(number: &i32) -> Slot
    ensures { value_of result ≡ Some (Number number.now) }
{
    Slot::Int(*number)
}

/// The slot that keeps a number of 64 bits.
#[inline(always)]
fn long_slot(number: &i64) -> Slot
    ensures { value_of result ≡ Some (Number number.now) }
{
    Slot::Long(*number)
}

/// The slot that keeps any number.
#[tactic(auto, unfolding(crate::specs::Slots::wide))]
fn wide_slot(number: i128) -> Slot
    ensures { value_of result ≡ Some (Number number) }
{
    let bits = number.cast_unsigned();
    Slot::Wide {
        low: (bits % HIGH) as u64,
        high: (bits / HIGH) as u64,
    }
}

/// The number as an int, where `int` has it.
#[inline(always)]
pub fn int_in(number: i128) -> Option<i32>
    ensures { IfSome result (λ n. n ≡ number) }
{
    if -0x8000_0000 <= number && number <= 0x7fff_ffff {
        Some(number as i32)
    } else {
        None
    }
}

/// The number in 64 bits, where these have it.
#[inline(always)]
fn long_in(number: i128) -> Option<i64>
    ensures { IfSome result (λ n. n ≡ number) }
{
    if -0x8000_0000_0000_0000 <= number && number <= 0x7fff_ffff_ffff_ffff {
        Some(number as i64)
    } else {
        None
    }
}

/// The number that a slot keeps, if it keeps one.
#[inline(always)]
pub fn number_in(slot: &Slot) -> Option<i128>
    ensures { result ≡ in_one number_meant (value_of slot.now) }
{
    match slot {
        Slot::Unset => None,
        Slot::Int(number) => Some(i128::from(*number)),
        Slot::Long(number) => Some(i128::from(*number)),
        Slot::Wide { low, high } => Some(wide_number(*low, *high)),
        Slot::Pointer { .. } => None,
    }
}

/// The int that a slot keeps as one.
#[inline(always)]
pub fn kept_int(slot: &Slot) -> Option<i32>
    ensures { IfSome result (λ n. in_one number_meant (value_of slot.now) ≡ Some n) }
{
    match slot {
        Slot::Int(number) => Some(*number),
        _ => None,
    }
}

/// The pointer that a slot keeps, if it keeps one.
#[inline(always)]
pub fn pointer_in(slot: &Slot) -> Option<Pointer>
    ensures { result ≡ in_one pointer_meant (value_of slot.now) }
{
    match slot {
        Slot::Pointer { object, offset } => Some(Pointer {
            object: *object,
            offset: *offset,
        }),
        Slot::Unset => None,
        Slot::Int(_) => None,
        Slot::Long(_) => None,
        Slot::Wide { .. } => None,
    }
}
