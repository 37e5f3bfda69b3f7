//! The times behind an operation that sets its register and goes on in its call.
ghost use Rattle.std.specs.Prelude.{◌≡◌, ℕ, ◌+◌, ◌*◌, ◌^◌, ◌<◌, IfSome, length};
ghost use Rattle.k_code.specs.Named.{operands, register_set};
ghost use Rattle.k_hcpa_meaning.specs.Timings.{given_to_all, operated};
ghost use Rattle.k_hcpa_times.specs.Seen.{AreBelow, ForLatency, KeepsPlaces, levels, made};
ghost use Rattle.k_hcpa_instructions.specs.Kinds.{HaveRoom, depends_by, held_by};
ghost use Rattle.k_hcpa_instructions.specs.AtOnce.{operated_by};

use crate::operands::{give_effect, give_register, raise_hidden, raise_operands};
use crate::plain::{Plain, operate_one, operate_two, plain_in};
use k_code::Instr;
use k_hcpa_times::Timed;
use k_shadow::Steps;
use std::sync::ledger::Ledger;

/// The operation of an instruction is made by parts: it begins, depends on one location after the other, and is given to one after the other.
#[tactic(auto, using(crate::proofs::Behind::raised_behind, crate::proofs::Behind::given_behind, crate::proofs::Behind::room_front, crate::proofs::Behind::room_back))]
fn operate_by_parts<T: Timed, L: Ledger>(
    times: &mut T,
    first: u32,
    instr: &Instr,
    element: Option<u32>,
    to: Option<u32>,
    steps: &mut Steps<L>,
)
    requires operands { AreBelow first (T.seen times.old).registers (operands instr.now.act) }
    requires element { IfSome element (λ e. e < (T.seen times.old).elements) }
    requires sets { to ≡ register_set instr.now.act }
    requires below { IfSome to (λ r. first + r < (T.seen times.old).registers) }
    requires few { IfSome to (λ r. first + r < 2 ^ 32) }
    requires room { HaveRoom (T.room times.old) (held_by first instr.now.act element) }
    requires latency { T.room times.old (ForLatency instr.now.latency) }
    ensures times { T.seen times.new ≡ made (λ t. given_to_all (held_by first instr.now.act element) (operated (depends_by first instr.now.act element) instr.now.latency t)) (T.seen times.old) }
    ensures kept { KeepsPlaces (T.room times.old) (T.room times.new) }
    ensures steps { steps.new ≡ steps.old + (1 + length (depends_by first instr.now.act element)) * levels (T.seen times.old) }
{
    times.begin(steps);
    raise_operands(times, first, &instr.act, steps);
    raise_hidden(times, &instr.act, element, steps);
    times.settle(instr.latency);
    give_effect(times, &instr.act, element);
    give_register(times, first, to);
}

/// The operation of an instruction is made, in a call whose registers are numbered from `first` on. It reads or writes this element, if it does, and
/// sets this register, if it does. One on registers alone is made at once.
pub fn operation_times<T: Timed, L: Ledger>(
    times: &mut T,
    first: u32,
    instr: &Instr,
    element: Option<u32>,
    to: Option<u32>,
    steps: &mut Steps<L>,
)
    requires operands { AreBelow first (T.seen times.old).registers (operands instr.now.act) }
    requires element { IfSome element (λ e. e < (T.seen times.old).elements) }
    requires sets { to ≡ register_set instr.now.act }
    requires below { IfSome to (λ r. first + r < (T.seen times.old).registers) }
    requires few { IfSome to (λ r. first + r < 2 ^ 32) }
    requires room { HaveRoom (T.room times.old) (held_by first instr.now.act element) }
    requires latency { T.room times.old (ForLatency instr.now.latency) }
    ensures times { T.seen times.new ≡ made (operated_by first instr.now element) (T.seen times.old) }
    ensures kept { KeepsPlaces (T.room times.old) (T.room times.new) }
    ensures steps { steps.new ≡ steps.old + (1 + length (depends_by first instr.now.act element)) * levels (T.seen times.old) }
{
    match plain_in(&instr.act) {
        Plain::One(a, r) => operate_one(times, first, a, instr.latency, first + r, steps),
        Plain::Two(a, b, r) => operate_two(times, first, a, b, instr.latency, first + r, steps),
        Plain::Other => operate_by_parts(times, first, instr, element, to, steps),
    }
}
