//! The registers of live calls, as operands read them: those of a call have numbers from its first one on.
ghost use Rattle.std.specs.Prelude.{◌≡◌, ℕ, ◌+◌, ◌≤◌, ◌<◌, ◌++◌, All, length, map, replicate, slice_get, slice_set, take, IfOk, IfSome, MatchResult, OnOk, None, Option, Some, vec_len, vec_capacity};
ghost use Rattle.k_world.specs.declared.value.Held.{Held};
ghost use Rattle.k_world.specs.declared.value.Read.{Read as ReadValue};
ghost use Rattle.k_world.specs.Operands.{held_by, source_in as source_meant, value_in as value_meant};
ghost use Rattle.k_code.specs.Steps.{parameters, read_of};
ghost use Rattle.k_code.specs.declared.instruction.Arg.TheVariants.{Number};
ghost use Rattle.k_hcpa_store.specs.AtOnce.{number_held as number_meant_in, pointer_held as pointer_meant_in, slot_read};
ghost use Rattle.k_hcpa_store.specs.Calls.{held_up_to, slots_of};
ghost use Rattle.k_hcpa_store.specs.Kept.{window};
ghost use Rattle.k_hcpa_store.specs.Slots.{CanKeep, held_of, value_of};

use crate::register::{
    Register, Slot, held_in, int_in, kept_int, number_in, number_slot, pointer_in, register_of,
};
use k_code::{Arg, CodeFunc};
use k_mem::Pointer;
use k_num::NoMemory;
use k_world::{Held, Read, Value};
use std::alloc::Global;
use std::marker::Model;

/// The registers of all live calls, those of the oldest call first. Contracts see what each of them holds.
#[derive(Drop)]
pub struct Registers {
    list: Vec<Register>,
}

impl Model for Registers {
    ghost use Rattle.std.specs.Prelude.{List, Option, map};
    ghost use Rattle.k_world.specs.declared.value.Held.{Held};
    ghost use Rattle.k_hcpa_store.specs.Slots.{held_of};

    ghost Value = { List (Option Held) };

    ghost view = { λ s. map held_of s.list.items };
}

/// A register that holds nothing.
const UNSET: Register = Register {
    slot: Slot::Unset,
    source: 0,
};

impl Registers {
    /// So many registers, which hold nothing.
    pub fn unset(alloc: Global, count: u32) -> Result<Registers, NoMemory>
        ensures { IfOk result (λ registers. registers ≡ replicate count None) }
    {
        let mut list = Vec::new(alloc);
        list.resize(count as usize, UNSET)?;
        Ok(Registers { list })
    }

    /// How many there are.
    #[inline(always)]
    pub fn count(&self) -> usize
        ensures { result ≡ length self.now }
    {
        self.list.len()
    }

    /// A register of a call. One that is not there holds nothing.
    #[inline(always)]
    pub fn register(&self, first: usize, r: u32) -> Register
        requires { first ≤ length self.now }
        ensures { held_of result ≡ window self.now first r }
    {
        match self.list.get(first + r as usize) {
            Some(register) => *register,
            None => UNSET,
        }
    }

    /// A register of a call is this from now on.
    #[inline(always)]
    pub fn set(&mut self, first: usize, r: u32, register: Register)
        requires { first + r < length self.old }
        ensures { self.new ≡ slice_set self.old (first + r) (held_of register) }
    {
        let _list = &self.list;
        let at = first + r as usize;
        self.list[at] = register;
    }

    /// Only so many are kept.
    pub fn keep(&mut self, count: usize)
        ensures { self.new ≡ take count self.old }
    {
        self.list.truncate(count);
    }

    /// Those of a new call come behind the others, and its parameters hold what was read. Where no memory is found nothing changes.
    pub fn begin(&mut self, f: CodeFunc, reads: &[Read]) -> Result<(), NoMemory>
        requires { All (λ (r : ReadValue). CanKeep (source_meant r.slot)) reads.now }
        ensures { MatchResult result (λ done. self.new ≡ self.old ++ held_up_to f.registers (parameters f.params (slots_of reads.now))) (λ none. self.new ≡ self.old) }
    {
        let Ok(()) = self.list.reserve(f.registers as usize) else {
            return Err(NoMemory);
        };
        begin_behind(&mut self.list, f, reads);
        Ok(())
    }
}

/// The registers of a new call, behind those of the others, for which there is room.
fn begin_behind(list: &mut Vec<Register>, f: CodeFunc, reads: &[Read])
    requires room { vec_len list.old + f.registers ≤ vec_capacity list.old }
    requires keeps { All (λ (r : ReadValue). CanKeep (source_meant r.slot)) reads.now }
    ensures { map held_of list.new.items ≡ map held_of list.old.items ++ held_up_to f.registers (parameters f.params (slots_of reads.now)) }
{
    for k in 0..f.registers {
        list.push_reserved(register_of(parameter(reads, f.params, k)));
    }
}

/// What a register of a new call holds: its first ones, so many, are the parameters.
fn parameter(reads: &[Read], params: u32, k: u32) -> Option<Held>
    requires { All (λ (r : ReadValue). CanKeep (source_meant r.slot)) reads.now }
    ensures held { result ≡ parameters params (slots_of reads.now) k }
    ensures keeps { CanKeep (source_meant result) }
{
    if k < params {
        slot_of(reads, k as usize)
    } else {
        None
    }
}

/// What an operand holds that may not be there.
fn slot_of(reads: &[Read], at: usize) -> Option<Held>
    requires { All (λ (r : ReadValue). CanKeep (source_meant r.slot)) reads.now }
    ensures held { result ≡ held_by (slice_get (slots_of reads.now) at) }
    ensures keeps { CanKeep (source_meant result) }
{
    match reads.get(at) {
        Some(read) => read.slot,
        None => None,
    }
}

/// What an operand reads.
#[inline(always)]
pub fn read(registers: &Registers, first: usize, arg: &Arg) -> Read
    requires { first ≤ length registers.now }
    ensures read { result ≡ read_of (window registers.now first) arg.now }
    ensures keeps { CanKeep (source_meant result.slot) }
{
    match arg {
        Arg::Number(number) => constant(number),
        Arg::Reg(r, broken) => Read {
            slot: held(registers, first, *r),
            broken: *broken,
        },
    }
}

/// The value that an operand reads, as a register keeps it.
#[inline(always)]
pub fn slot_at(registers: &Registers, first: usize, arg: &Arg) -> Slot
    requires { first ≤ length registers.now }
    ensures { value_of result ≡ value_meant (slot_read registers.now first arg.now) }
{
    match arg {
        Arg::Number(number) => number_slot(*number),
        Arg::Reg(r, _) => kept_slot(registers, first, *r),
    }
}

/// The number that an operand reads, if it reads one.
#[inline(always)]
pub fn number_read(registers: &Registers, first: usize, arg: &Arg) -> Option<i128>
    requires { first ≤ length registers.now }
    ensures { result ≡ number_meant_in (slot_read registers.now first arg.now) }
{
    match arg {
        Arg::Number(number) => Some(*number),
        Arg::Reg(r, _) => number_in(&kept_slot(registers, first, *r)),
    }
}

/// The int that an operand reads, where it reads one that is kept as such.
#[inline(always)]
pub fn int_read(registers: &Registers, first: usize, arg: &Arg) -> Option<i32>
    requires { first ≤ length registers.now }
    ensures { IfSome result (λ n. number_meant_in (slot_read registers.now first arg.now) ≡ Some n) }
{
    match arg {
        Arg::Number(number) => int_in(*number),
        Arg::Reg(r, _) => kept_int(&kept_slot(registers, first, *r)),
    }
}

/// The pointer that an operand reads, if it reads one.
#[inline(always)]
pub fn pointer_read(registers: &Registers, first: usize, arg: &Arg) -> Option<Pointer>
    requires { first ≤ length registers.now }
    ensures { result ≡ pointer_meant_in (slot_read registers.now first arg.now) }
{
    match arg {
        Arg::Number(_) => None,
        Arg::Reg(r, _) => pointer_in(&kept_slot(registers, first, *r)),
    }
}

/// What a register of the call holds.
#[inline(always)]
fn held(registers: &Registers, first: usize, r: u32) -> Option<Held>
    requires { first ≤ length registers.now }
    ensures held { result ≡ window registers.now first r }
    ensures keeps { CanKeep (source_meant result) }
{
    held_in(&registers.register(first, r))
}

/// The value that a register of the call holds, as it keeps it.
#[tactic(auto, using(crate::proofs::Keeping::value_from))]
#[inline(always)]
pub fn kept_slot(registers: &Registers, first: usize, r: u32) -> Slot
    requires { first ≤ length registers.now }
    ensures { value_meant (window registers.now first r) ≡ value_of result }
{
    let register = registers.register(first, r);
    register.slot
}

/// What operands read, in a list that is kept for them.
pub fn read_all(
    reads: &mut Vec<Read>,
    registers: &Registers,
    first: usize,
    args: &[Arg],
) -> Result<(), NoMemory>
    requires { first ≤ length registers.now }
    ensures read { OnOk result (reads.new.items ≡ map (read_of (window registers.now first)) args.now) }
    ensures keeps { OnOk result (All (λ (r : ReadValue). CanKeep (source_meant r.slot)) reads.new.items) }
{
    reads.clear();
    for arg in args {
        reads.push(read(registers, first, arg))?;
    }
    Ok(())
}

/// What a constant reads.
#[inline(always)]
fn constant(number: &i128) -> Read
    ensures read { (registers : ℕ → Option Held) → result ≡ read_of registers (Number number.now) }
    ensures keeps { CanKeep (source_meant result.slot) }
{
    Read {
        slot: Some(Held {
            value: Value::Number(*number),
            source: None,
        }),
        broken: false,
    }
}
