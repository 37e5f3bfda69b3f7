//! The times behind a call and behind a return.
ghost use Rattle.std.specs.Prelude.{◌≡◌, ◌+◌, ◌*◌, ◌^◌, ◌<◌, ◌≤◌, [], ◌∷◌, IfSome, length};
ghost use Rattle.k_hcpa_meaning.specs.Calls.{arguments_handed, cleared_back, given_back};
ghost use Rattle.k_hcpa_meaning.specs.Locations.{operand_locations};
ghost use Rattle.k_hcpa_meaning.specs.Timings.{begun, raised_all, settled};
ghost use Rattle.k_hcpa_times.specs.Seen.{AreBelow, HasRegisters, ForLatency, ForRegister, Keeps, KeepsPlaces, levels, made};

use k_code::Arg;
use k_hcpa_times::Timed;
use k_shadow::Steps;
use std::sync::ledger::Ledger;

/// What a call is: its operands, the latency of its operation, and how many parameters the function has. The caller's registers are numbered from
/// `first` on, those of the new call from `to` on.
#[derive(Clone, Copy)]
pub struct Call<'a> {
    pub first: u32,
    pub to: u32,
    pub params: u32,
    pub args: &'a [Arg],
    pub latency: u64,
}

/// A call is made: its operation depends on the operands, whose values are handed to the parameters.
pub fn call_times<T: Timed, L: Ledger>(times: &mut T, call: Call<'_>, steps: &mut Steps<L>)
    requires args { AreBelow call.first (T.seen times.old).registers call.args.now }
    requires to { call.to + call.params ≤ (T.seen times.old).registers }
    requires few { call.to + call.params < 2 ^ 32 }
    requires room { HasRegisters call.to call.params (T.room times.old) }
    requires latency { T.room times.old (ForLatency call.latency) }
    ensures times { T.seen times.new ≡ made (λ t. settled call.entry.latency (arguments_handed call.entry.first call.entry.to call.entry.params call.entry.args.now (begun t))) (T.seen times.old) }
    ensures kept { KeepsPlaces (T.room times.old) (T.room times.new) }
    ensures least { steps.old ≤ steps.new }
    ensures steps { steps.new ≤ steps.old + (1 + length call.entry.args.now) * levels (T.seen times.old) }
{
    times.begin(steps);
    times.hand_all(call.first, call.to, call.params, call.args, steps);
    times.settle(call.latency);
}

/// The operation of a return begins, if it makes one: it depends on what is returned.
pub fn begin_return<T: Timed, L: Ledger>(times: &mut T, first: u32, a: Arg, steps: &mut Steps<L>)
    requires { AreBelow first (T.seen times.old).registers (a ∷ []) }
    ensures times { T.seen times.new ≡ made (λ t. raised_all (operand_locations first (a ∷ [])) (begun t)) (T.seen times.old) }
    ensures kept { Keeps (T.room times.old) (T.room times.new) }
    ensures steps { steps.new ≡ steps.old + (1 + length (operand_locations first (a ∷ []))) * levels (T.seen times.old) }
{
    times.begin(steps);
    times.raise_arg(first, a, steps);
}

/// The caller's register that gets what is returned, if there is one, holds what the operation gave that is being made.
pub fn give_back<T: Timed>(times: &mut T, back: Option<u32>)
    requires below { IfSome back (λ r. r < (T.seen times.old).registers) }
    requires room { IfSome back (λ r. T.room times.old (ForRegister r)) }
    ensures { T.seen times.new ≡ made (given_back back) (T.seen times.old) }
{
    if let Some(back) = back {
        times.give_register(back);
    }
}

/// The caller's register that gets what is returned, if there is one, holds what no operation gave.
pub fn clear_back<T: Timed>(times: &mut T, back: Option<u32>)
    requires { IfSome back (λ r. r < (T.seen times.old).registers) }
    ensures { T.seen times.new ≡ made (cleared_back back) (T.seen times.old) }
{
    if let Some(back) = back {
        times.clear_registers(back, 1);
    }
}
