//! The parts of instructions that make operations.
ghost use Rattle.std.specs.Prelude.{◌≡◌, option_map};
ghost use Rattle.k_world.specs.Answers.{act_of};
ghost use Rattle.k_code.specs.Named.{operands as operands_named, register_set as register_named, returned_operands};
ghost use Rattle.k_hcpa_store.specs.Parts.{listed, plain_act};

use k_code::{Arg, Do};
use k_world::ActRef;

/// The operands of an instruction, lent.
#[derive(Clone, Copy)]
pub enum Operands<'a> {
    Nothing,
    One(&'a Arg),
    Two(&'a Arg, &'a Arg),
    All(&'a [Arg]),
}

/// The act of an instruction that makes an operation and goes on in its call.
#[tactic(auto, unfolding(crate::specs::Parts::plain_act))]
#[inline(always)]
pub fn act_in(what: &Do) -> Option<ActRef<'_>>
    ensures { option_map act_of result ≡ plain_act what.now }
{
    match what {
        Do::Binary { op, kind, .. } => Some(ActRef::Binary(*op, *kind)),
        Do::Unary { op, kind, .. } => Some(ActRef::Unary(*op, *kind)),
        Do::Convert { kind, .. } => Some(ActRef::Convert(*kind)),
        Do::Move { .. } => Some(ActRef::Move),
        Do::Offset { minus, scale, .. } => Some(ActRef::Offset {
            minus: *minus,
            scale: *scale,
        }),
        Do::PtrCompare { op, .. } => Some(ActRef::PtrCompare(*op)),
        Do::PtrDistance { scale, .. } => Some(ActRef::PtrDistance { scale: *scale }),
        Do::Load { .. } => Some(ActRef::Load),
        Do::Store { .. } => Some(ActRef::Store),
        Do::Input { .. } => Some(ActRef::Input),
        Do::Output { what, .. } => Some(ActRef::Output(what)),
        Do::Test { .. } => Some(ActRef::Test),
        _ => None,
    }
}

/// The operands of an instruction.
#[tactic(auto, unfolding(k_code::specs::Named::operands))]
#[inline(always)]
pub fn operands_in(what: &Do) -> Operands<'_>
    ensures { listed result ≡ operands_named what.now }
{
    match what {
        Do::Binary { a, b, .. } => Operands::Two(a, b),
        Do::Unary { a, .. } => Operands::One(a),
        Do::Convert { a, .. } => Operands::One(a),
        Do::Move { a, .. } => Operands::One(a),
        Do::Offset { at, by, .. } => Operands::Two(at, by),
        Do::PtrCompare { a, b, .. } => Operands::Two(a, b),
        Do::PtrDistance { a, b, .. } => Operands::Two(a, b),
        Do::Load { at, .. } => Operands::One(at),
        Do::Store { at, a, .. } => Operands::Two(at, a),
        Do::Output { args, .. } => Operands::All(args.as_slice()),
        Do::Test { a, .. } => Operands::One(a),
        Do::Call { args, .. } => Operands::All(args.as_slice()),
        Do::Return { value } => returned(value),
        _ => Operands::Nothing,
    }
}

/// The operand of a return.
#[inline(always)]
fn returned(value: &Option<Arg>) -> Operands<'_>
    ensures { listed result ≡ returned_operands value.now }
{
    match value {
        Some(a) => Operands::One(a),
        None => Operands::Nothing,
    }
}

/// The register that an instruction sets or clears.
#[tactic(auto, unfolding(k_code::specs::Named::register_set))]
#[inline(always)]
pub fn register_in(what: &Do) -> Option<u32>
    ensures { result ≡ register_named what.now }
{
    match what {
        Do::Binary { to, .. } => Some(*to),
        Do::Unary { to, .. } => Some(*to),
        Do::Convert { to, .. } => Some(*to),
        Do::Move { to, .. } => Some(*to),
        Do::Offset { to, .. } => Some(*to),
        Do::PtrCompare { to, .. } => Some(*to),
        Do::PtrDistance { to, .. } => Some(*to),
        Do::Load { to, .. } => Some(*to),
        Do::Store { to, .. } => *to,
        Do::Input { to } => Some(*to),
        Do::Output { to, .. } => Some(*to),
        Do::Test { to, .. } => *to,
        Do::Address { to, .. } => Some(*to),
        Do::Forget { register } => Some(*register),
        Do::Call { to, .. } => *to,
        _ => None,
    }
}
