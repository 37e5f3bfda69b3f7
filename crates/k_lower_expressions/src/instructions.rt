//! Single instructions: each has the latency of the operation that it makes.
ghost use Rattle.std.specs.Prelude.{◌≡◌, ◌+◌, ◌<◌, length, slice_set, IfOk};
ghost use Rattle.k_code.specs.Steps.{operation_of};
ghost use Rattle.k_code.specs.declared.instruction.Do.TheVariants.{Return};
ghost use Rattle.k_lower_code.specs.Pieces.{does as does_meant, if_used as if_used_meant, instruction as instruction_meant, latency_by, sets as sets_meant};
ghost use Rattle.k_lower_expressions.specs.Arounds.{program_of};
ghost use Rattle.k_lower_expressions.specs.Emits.{Emits};

use crate::around::Around;
use k_code::{Arg, Do, Instr};
use k_num::{NoMemory, Place};
use k_optab::{Class, Latencies, of};
use k_typed_parts::class_of;
use std::mem;

/// The latency of the operation that an instruction makes, or 0 where it makes none.
#[tactic(auto, unfolding(k_code::specs::Steps::operation_of))]
fn latency_of(latencies: &Latencies, act: &Do) -> u64
    ensures { result ≡ latency_by latencies.now (operation_of act.now) }
{
    match act {
        Do::Binary { op, .. } => of(latencies, class_of(*op)),
        Do::Unary { .. } => of(latencies, Class::Simple),
        Do::Convert { .. } => of(latencies, Class::Conv),
        Do::Move { .. } => of(latencies, Class::Move),
        Do::Offset { .. } => of(latencies, Class::Simple),
        Do::PtrCompare { .. } => of(latencies, Class::Simple),
        Do::PtrDistance { .. } => of(latencies, Class::Div),
        Do::Load { .. } => of(latencies, Class::Load),
        Do::Store { .. } => of(latencies, Class::Store),
        Do::Input { .. } => of(latencies, Class::Input),
        Do::Output { .. } => of(latencies, Class::Output),
        Do::Test { class, .. } => of(latencies, *class),
        Do::Call { .. } => of(latencies, Class::Call),
        Do::Return { value } => latency_of_return(latencies, *value),
        _ => 0,
    }
}

/// The same of a return, by what it returns.
#[tactic(auto, unfolding(k_code::specs::Steps::operation_of))]
fn latency_of_return(latencies: &Latencies, value: Option<Arg>) -> u64
    ensures { result ≡ latency_by latencies.now (operation_of (Return value)) }
{
    match value {
        Some(_) => of(latencies, Class::Move),
        None => 0,
    }
}

/// An instruction that does this at this place.
pub fn instruction(around: &Around<'_>, place: Place, act: Do) -> Instr
    ensures { result ≡ instruction_meant (program_of around.now) place act }
{
    let latency = latency_of(around.latencies, &act);
    Instr {
        place,
        latency,
        act,
    }
}

/// Emits an instruction.
pub fn does(
    around: &Around<'_>,
    place: Place,
    act: Do,
    out: &mut Vec<Instr>,
) -> Result<(), NoMemory>
    ensures { Emits result (does_meant (program_of around.now) place act) out.old.items out.new.items }
{
    out.push(instruction(around, place, act))?;
    Ok(())
}

/// Emits an instruction that sets this register, which is then an operand.
pub fn sets(
    around: &Around<'_>,
    place: Place,
    act: Do,
    to: u32,
    out: &mut Vec<Instr>,
) -> Result<Arg, NoMemory>
    ensures { Emits result (sets_meant (program_of around.now) place (λ register. act) to) out.old.items out.new.items }
{
    does(around, place, act, out)?;
    Ok(Arg::Reg(to, false))
}

/// Puts an instruction in the place of the one of this number.
pub fn replace(around: &Around<'_>, place: Place, act: Do, number: u32, out: &mut Vec<Instr>)
    requires { number < length out.old.items }
    ensures { out.new.items ≡ slice_set out.old.items number (instruction_meant (program_of around.now) place act) }
{
    let old = mem::replace(&mut out[number as usize], instruction(around, place, act));
    drop(old);
}

/// The number of the instruction that is emitted next.
pub fn next_number(out: &Vec<Instr>) -> Result<u32, NoMemory>
    ensures { IfOk result (λ number. number ≡ length out.now.items) }
{
    match u32::try_from(out.len()) {
        Ok(number) => Ok(number),
        Err(_) => Err(NoMemory),
    }
}

/// The register so many above another.
pub fn above(register: u32, count: u32) -> Result<u32, NoMemory>
    ensures { IfOk result (λ above. above ≡ register + count) }
{
    match register.checked_add(count) {
        Some(above) => Ok(above),
        None => Err(NoMemory),
    }
}

/// The register to which a value goes, where it is used.
pub fn if_used(used: bool, to: u32) -> Option<u32>
    ensures { result ≡ if_used_meant used to }
{
    if used { Some(to) } else { None }
}
