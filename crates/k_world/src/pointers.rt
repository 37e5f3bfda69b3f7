//! What acts on pointers give.
ghost use Rattle.std.specs.Prelude.{◌≡◌, true, pos, int_div, ◌≤◌, ◌<◌};
ghost use Rattle.k_num.specs.Arithmetic.{truth as truth_of};
ghost use Rattle.k_mem.specs.Calls.{shift_of};
ghost use Rattle.k_world.specs.Acts.{at_least_one as at_least_one_of, compared as compared_by, compare_work, distance as distance_of, distance_work, given_by, offset_work, pointer_and_number as pointer_and_number_in, two_pointers as two_pointers_in};
ghost use Rattle.k_world.specs.Operands.{are_set, values_of};
ghost use Rattle.k_world.specs.Answers.{near};

use crate::operands::{pointer_and_number, two_pointers};
use crate::works::{trap_of_memory, truth};
use crate::{Read, Value};
use k_ending::Trap;
use k_mem::{MemTrap, Objects, Pointer};
use k_num::Bin;

/// So far from an object lies each place this many numbers from a pointer, whatever its offset.
const FAR: i128 = 1 << 64;

/// How many numbers one element has: 0 counts as 1.
fn at_least_one(scale: u32) -> u32
    ensures { result ≡ at_least_one_of scale }
{
    scale.max(1)
}

/// How many numbers lie between two places that are so many elements apart; of more elements than can be in any object, only so many
/// that the place is out of reach.
fn distance(minus: bool, scale: u32, by: i128) -> i128
    ensures { result ≡ distance_of minus scale (near by) }
{
    let numbers = by.clamp(-FAR, FAR) * i128::from(at_least_one(scale));
    if minus { -numbers } else { numbers }
}

/// How many elements so many numbers are.
fn elements(numbers: i128, scale: u32) -> i128
    ensures { result ≡ int_div numbers (pos (at_least_one_of scale)) }
{
    numbers / i128::from(at_least_one(scale))
}

/// A pointer is moved.
pub fn offset(objects: &Objects, minus: bool, scale: u32, reads: &[Read]) -> Result<Value, Trap>
    requires { are_set reads.now ≡ true }
    ensures { result ≡ given_by (λ n. offset_work minus scale objects.now n.0 n.1) (pointer_and_number_in (values_of reads.now)) }
{
    let Some((at, by)) = pointer_and_number(reads) else {
        return Err(Trap::Uninit);
    };
    match shifted(objects, minus, scale, at, by) {
        Ok(pointer) => Ok(Value::Pointer(pointer)),
        Err(trap) => Err(trap_of_memory(trap)),
    }
}

/// The pointer that lies so many elements further on, or back.
fn shifted(
    objects: &Objects,
    minus: bool,
    scale: u32,
    at: Pointer,
    by: i128,
) -> Result<Pointer, MemTrap>
    ensures { result ≡ shift_of objects.now at (distance_of minus scale by) }
{
    objects.shift(at, distance(minus, scale, by))
}

/// Two pointers are compared.
pub fn compare(objects: &Objects, op: Bin, reads: &[Read]) -> Result<Value, Trap>
    requires { are_set reads.now ≡ true }
    ensures { result ≡ given_by (λ p. compare_work op objects.now p.0 p.1) (two_pointers_in (values_of reads.now)) }
{
    let Some((p, q)) = two_pointers(reads) else {
        return Err(Trap::Uninit);
    };
    match compare_two(objects, op, p, q) {
        Ok(value) => Ok(value),
        Err(trap) => Err(trap),
    }
}

/// How two pointers compare.
fn compare_two(objects: &Objects, op: Bin, p: Pointer, q: Pointer) -> Result<Value, Trap>
    ensures { result ≡ compare_work op objects.now p q }
{
    match op {
        Bin::Lt | Bin::Le | Bin::Gt | Bin::Ge => match objects.order(p, q) {
            Ok(difference) => Ok(compared(op, difference)),
            Err(trap) => Err(trap_of_memory(trap)),
        },
        _ => match objects.same(p, q) {
            Ok(same) => Ok(truth(same != (op == Bin::Ne))),
            Err(trap) => Err(trap_of_memory(trap)),
        },
    }
}

/// How an offset compares with 0.
fn compared(op: Bin, difference: i128) -> Value
    ensures { result ≡ compared_by op difference }
{
    truth(match op {
        Bin::Lt => difference < 0,
        Bin::Le => difference <= 0,
        Bin::Gt => difference > 0,
        Bin::Ge => difference >= 0,
        _ => difference == 0,
    })
}

/// How many elements lie between two pointers.
pub fn difference(objects: &Objects, scale: u32, reads: &[Read]) -> Result<Value, Trap>
    requires { are_set reads.now ≡ true }
    ensures { result ≡ given_by (λ p. distance_work scale objects.now p.0 p.1) (two_pointers_in (values_of reads.now)) }
{
    let Some((p, q)) = two_pointers(reads) else {
        return Err(Trap::Uninit);
    };
    match objects.order(p, q) {
        Ok(difference) => Ok(Value::Number(elements(difference, scale))),
        Err(trap) => Err(trap_of_memory(trap)),
    }
}
