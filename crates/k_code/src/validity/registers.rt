//! How many registers instructions need.
ghost use Rattle.std.specs.Prelude.{◌≡◌, [], ◌∷◌};
ghost use Rattle.k_code.specs.Decides.{AreNeeded};
ghost use Rattle.k_code.specs.Named.{operands, register_set as register_set_by, registers_needed as registers_needed_by, up_to_operand as up_to_operand_of, up_to_operands as up_to_operands_of, up_to_register as up_to_register_of, returned_operands};

use crate::{Arg, Do, Instr};

/// How many registers these instructions need.
pub(super) fn all_needed(instrs: &[Instr]) -> u64
    ensures { AreNeeded instrs.now result }
{
    let mut most = 0;
    for instr in instrs {
        most = most.max(registers_needed(&instr.act));
    }
    most
}

/// How many an instruction needs.
#[tactic(auto, unfolding(crate::specs::Named::registers_needed))]
fn registers_needed(act: &Do) -> u64
    ensures { result ≡ registers_needed_by act.now }
{
    up_to_operands(act).max(up_to_register(register_set(act)))
}

/// How many its operands need.
#[tactic(auto, unfolding(crate::specs::Named::operands))]
fn up_to_operands(act: &Do) -> u64
    ensures { result ≡ up_to_operands_of (operands act.now) }
{
    match act {
        Do::Binary { a, b, .. } => up_to_two(*a, *b),
        Do::Unary { a, .. } => up_to_one(*a),
        Do::Convert { a, .. } => up_to_one(*a),
        Do::Move { a, .. } => up_to_one(*a),
        Do::Offset { at, by, .. } => up_to_two(*at, *by),
        Do::PtrCompare { a, b, .. } => up_to_two(*a, *b),
        Do::PtrDistance { a, b, .. } => up_to_two(*a, *b),
        Do::Load { at, .. } => up_to_one(*at),
        Do::Store { at, a, .. } => up_to_two(*at, *a),
        Do::Output { args, .. } => up_to_all(args.as_slice()),
        Do::Test { a, .. } => up_to_one(*a),
        Do::Call { args, .. } => up_to_all(args.as_slice()),
        Do::Return { value } => up_to_returned(*value),
        _ => 0,
    }
}

/// How many an operand needs.
fn up_to_operand(a: Arg) -> u64
    ensures { result ≡ up_to_operand_of a }
{
    match a {
        Arg::Number(_) => 0,
        Arg::Reg(register, _) => u64::from(register) + 1,
    }
}

/// How many one operand needs.
fn up_to_one(a: Arg) -> u64
    ensures { result ≡ up_to_operands_of (a ∷ []) }
{
    up_to_operand(a)
}

/// How many two operands need.
fn up_to_two(a: Arg, b: Arg) -> u64
    ensures { result ≡ up_to_operands_of (a ∷ b ∷ []) }
{
    up_to_operand(a).max(up_to_operand(b))
}

/// How many all these operands need.
fn up_to_all(args: &[Arg]) -> u64
    ensures { result ≡ up_to_operands_of args.now }
{
    let mut most = 0;
    for a in args {
        most = most.max(up_to_operand(*a));
    }
    most
}

/// How many the operand of a return needs.
fn up_to_returned(value: Option<Arg>) -> u64
    ensures { result ≡ up_to_operands_of (returned_operands value) }
{
    match value {
        Some(a) => up_to_one(a),
        None => 0,
    }
}

/// How many a register needs.
fn up_to_register(register: Option<u32>) -> u64
    ensures { result ≡ up_to_register_of register }
{
    match register {
        Some(register) => u64::from(register) + 1,
        None => 0,
    }
}

/// The register that an instruction sets or clears.
#[tactic(auto, unfolding(crate::specs::Named::register_set))]
fn register_set(act: &Do) -> Option<u32>
    ensures { result ≡ register_set_by act.now }
{
    match act {
        Do::Binary { to, .. } => Some(*to),
        Do::Unary { to, .. } => Some(*to),
        Do::Convert { to, .. } => Some(*to),
        Do::Move { to, .. } => Some(*to),
        Do::Offset { to, .. } => Some(*to),
        Do::PtrCompare { to, .. } => Some(*to),
        Do::PtrDistance { to, .. } => Some(*to),
        Do::Load { to, .. } => Some(*to),
        Do::Store { to, .. } => *to,
        Do::Input { to } => Some(*to),
        Do::Output { to, .. } => Some(*to),
        Do::Test { to, .. } => *to,
        Do::Address { to, .. } => Some(*to),
        Do::Forget { register } => Some(*register),
        Do::Call { to, .. } => *to,
        _ => None,
    }
}
