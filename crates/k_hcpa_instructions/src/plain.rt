//! Operations that depend on their operands alone, and whose register alone holds what they give: most operations of a run. They are made at once.
ghost use Rattle.std.specs.Prelude.{◌≡◌, ℕ, ◌+◌, ◌*◌, ◌^◌, ◌<◌, [], ◌∷◌, IfSome, length};
ghost use Rattle.k_hcpa_meaning.specs.Locations.{operand_locations};
ghost use Rattle.k_hcpa_meaning.specs.Timings.{Register, given_to, operated};
ghost use Rattle.k_hcpa_times.specs.AtOnce.{at_once};
ghost use Rattle.k_hcpa_times.specs.Seen.{AreBelow, ForLatency, ForRegister, KeepsPlaces, levels, made};
ghost use Rattle.k_hcpa_instructions.specs.AtOnce.{IsPlain, read_from};

use k_code::{Arg, Do};
use k_hcpa_times::Timed;
use k_shadow::Steps;
use std::sync::ledger::Ledger;

/// The operands of an instruction, and the register that it sets, where its operation depends on these and sets this alone.
#[derive(Clone, Copy)]
pub enum Plain<'a> {
    One(&'a Arg, u32),
    Two(&'a Arg, &'a Arg, u32),
    Other,
}

/// What is plain of an instruction.
#[inline]
#[tactic(auto, unfolding(k_code::specs::Named::operands, k_code::specs::Named::register_set, crate::specs::AtOnce::is_plain))]
pub(crate) fn plain_in(what: &Do) -> Plain<'_>
    ensures { IsPlain what.now result }
{
    match what {
        Do::Binary { a, b, to, .. } => Plain::Two(a, b, *to),
        Do::Unary { a, to, .. } => Plain::One(a, *to),
        Do::Convert { a, to, .. } => Plain::One(a, *to),
        Do::Move { a, to } => Plain::One(a, *to),
        Do::Offset { at, by, to, .. } => Plain::Two(at, by, *to),
        Do::PtrCompare { a, b, to, .. } => Plain::Two(a, b, *to),
        Do::PtrDistance { a, b, to, .. } => Plain::Two(a, b, *to),
        _ => Plain::Other,
    }
}

/// The register on which an operand makes an operation depend, where the call's registers are numbered from `first` on: none for a constant, and none
/// where that dependence is broken.
#[inline]
fn read_register(first: u32, arg: &Arg) -> Option<u32>
    requires { (limit : ℕ) × AreBelow first limit (arg.now ∷ []) }
    ensures told { operand_locations first (arg.now ∷ []) ≡ read_from result }
    ensures below { (limit : ℕ) → AreBelow first limit (arg.now ∷ []) → IfSome result (λ r. r < limit) }
{
    match arg {
        Arg::Number(_) => None,
        Arg::Reg(register, broken) => {
            if *broken {
                None
            } else {
                Some(first + *register)
            }
        }
    }
}

/// An operation with one operand is made, and a register holds what it gave.
#[inline]
pub(crate) fn operate_one<T: Timed, L: Ledger>(
    times: &mut T,
    first: u32,
    a: &Arg,
    latency: u64,
    to: u32,
    steps: &mut Steps<L>,
)
    requires arg { AreBelow first (T.seen times.old).registers (a.now ∷ []) }
    requires below { to < (T.seen times.old).registers }
    requires room { T.room times.old (ForRegister to) }
    requires latency { T.room times.old (ForLatency latency) }
    ensures given { T.seen times.new ≡ made (at_once (λ t. given_to (Register to) (operated (operand_locations first (a.now ∷ [])) latency t))) (T.seen times.old) }
    ensures kept { KeepsPlaces (T.room times.old) (T.room times.new) }
    ensures steps { steps.new ≡ steps.old + (1 + length (operand_locations first (a.now ∷ []))) * levels (T.seen times.old) }
{
    match read_register(first, a) {
        None => times.give_after_none(latency, to, steps),
        Some(from) => times.give_after_one(from, latency, to, steps),
    }
}

/// An operation with an operand and a register is made, on which it depends first, and a register holds what it gave.
#[inline]
fn operate_with<T: Timed, L: Ledger>(
    times: &mut T,
    first: u32,
    left: u32,
    b: &Arg,
    latency: u64,
    to: u32,
    steps: &mut Steps<L>,
)
    requires left { left < (T.seen times.old).registers }
    requires arg { AreBelow first (T.seen times.old).registers (b.now ∷ []) }
    requires below { to < (T.seen times.old).registers }
    requires room { T.room times.old (ForRegister to) }
    requires latency { T.room times.old (ForLatency latency) }
    ensures given { T.seen times.new ≡ made (at_once (λ t. given_to (Register to) (operated (Register left ∷ operand_locations first (b.now ∷ [])) latency t))) (T.seen times.old) }
    ensures kept { KeepsPlaces (T.room times.old) (T.room times.new) }
    ensures steps { steps.new ≡ steps.old + (2 + length (operand_locations first (b.now ∷ []))) * levels (T.seen times.old) }
{
    match read_register(first, b) {
        None => times.give_after_one(left, latency, to, steps),
        Some(right) => times.give_after_two(left, right, latency, to, steps),
    }
}

/// An operation with two operands is made, and a register holds what it gave.
#[inline]
pub(crate) fn operate_two<T: Timed, L: Ledger>(
    times: &mut T,
    first: u32,
    a: &Arg,
    b: &Arg,
    latency: u64,
    to: u32,
    steps: &mut Steps<L>,
)
    requires args { AreBelow first (T.seen times.old).registers (a.now ∷ b.now ∷ []) }
    requires below { to < (T.seen times.old).registers }
    requires room { T.room times.old (ForRegister to) }
    requires latency { T.room times.old (ForLatency latency) }
    ensures given { T.seen times.new ≡ made (at_once (λ t. given_to (Register to) (operated (operand_locations first (a.now ∷ b.now ∷ [])) latency t))) (T.seen times.old) }
    ensures kept { KeepsPlaces (T.room times.old) (T.room times.new) }
    ensures steps { steps.new ≡ steps.old + (1 + length (operand_locations first (a.now ∷ b.now ∷ []))) * levels (T.seen times.old) }
{
    match read_register(first, a) {
        None => operate_one(times, first, b, latency, to, steps),
        Some(left) => operate_with(times, first, left, b, latency, to, steps),
    }
}
