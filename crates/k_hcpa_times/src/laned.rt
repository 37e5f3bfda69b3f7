//! The contract of the times of all locations while the control source's and the paths stand in lanes.
ghost use Rattle.std.specs.Prelude.{◌≡◌, ℕ, ◌+◌, ◌*◌, ◌^◌, ◌<◌, ◌≤◌, true, false, [], ◌∷◌, ◌++◌, length, None, IfSome};
ghost use Rattle.k_hcpa_meaning.specs.Calls.{arguments_handed};
ghost use Rattle.k_hcpa_meaning.specs.Timings.{Register, Element, Control, begun, settled, operated, given_to, registers_cleared, control_saved, control_restored, control_kept, control_back, left_below};
ghost use Rattle.k_hcpa_times.specs.AtOnce.{at_once};
ghost use Rattle.k_hcpa_times.specs.Seen.{AreBelow, levels, made, instance_entered};
ghost use Rattle.k_hcpa_times.specs.Lanes.{with_lanes, locations_from, register_held, AreRegistersBelow, IsOperated};
ghost use Rattle.k_shadow.specs.Content.{at_levels};

use crate::timed::Timed;
use k_code::Arg;
use k_shadow::{Steps, TimeLanes};
use std::marker::Model;
use std::sync::ledger::Ledger;

/// The times of the control source, and the weight of the heaviest path, in a lane for each of the outermost levels. The lanes of levels that are not
/// live hold anything.
#[derive(Drop)]
pub struct Lanes<V: TimeLanes> {
    pub control: V,
    pub paths: V,
}

impl<V: TimeLanes> Model for Lanes<V> {
    ghost use Rattle.k_shadow.specs.Content.{at_levels};
    ghost use Rattle.k_hcpa_times.specs.Lanes.{Laid};

    ghost Value = { Laid };

    ghost view = { λ l. record { lanes = V.count; control = at_levels V.count (V.time l.control); paths = at_levels V.count (V.time l.paths) } };
}

/// The same lanes. What stands in a copy stands in memory wherever that is lent, and these do not.
#[inline(always)]
pub fn copied<V: TimeLanes>(lanes: &Lanes<V>) -> Lanes<V>
    ensures { result ≡ lanes.now }
{
    Lanes {
        control: lanes.control,
        paths: lanes.paths,
    }
}

/// The registers on which an operation depends: as many of these two as there are sources. They are numbered among those of all live calls.
#[derive(Clone, Copy)]
pub struct From {
    pub sources: u8,
    pub left: u32,
    pub right: u32,
}

/// Times that are made in lanes where no time needs more than 32 bits and each live level has a lane. Between `open` and `close` the lanes have the
/// control source's times and the paths; what is kept of these is old.
///
/// A call that answers false changed nothing that is seen, and took no step: what it was asked for may need more than lanes have, or memory.
pub trait Laned: Timed {
    ghost use Rattle.std.specs.Prelude.{List};
    ghost use Rattle.k_hcpa_times.specs.Lanes.{Laid};

    /// These lanes may stand for the control source's times and the paths.
    ghost laned: { Self → Laid → Type 0 };

    /// A call may be made whose parameters, so many, are in the registers from this one on, by an operation that takes so long.
    ghost calls: { Self → ℕ → ℕ → ℕ → Type 0 };

    /// An instance may be entered where so many are open, of which those below the depth have levels.
    ghost enters: { Self → Laid → ℕ → ℕ → Type 0 };

    /// A register may get these times, one for each live level.
    ghost gets: { Self → ℕ → List ℕ → Type 0 };

    /// Moves the control source's times and the paths into lanes, where these can hold them. It takes no step: the control source is read by the operations
    /// that depend on it.
    fn open<V: TimeLanes>(&mut self) -> Option<Lanes<V>>
        requires { V.count ≤ 32 }
        ensures same { Self.seen self.new ≡ Self.seen self.old }
        ensures laned { IfSome result (λ l. laned self.new l) }
        ensures lanes { IfSome result (λ l. with_lanes l (Self.seen self.new) ≡ Self.seen self.new) };

    /// Moves them back.
    fn close<V: TimeLanes>(&mut self, lanes: &Lanes<V>)
        requires { laned self.old lanes.now }
        ensures { Self.seen self.new ≡ with_lanes lanes.now (Self.seen self.old) };

    /// An operation is made at once that depends on registers, and a register holds what it gave.
    fn give_lanes<V: TimeLanes, L: Ledger>(
        &mut self,
        lanes: &mut Lanes<V>,
        from: From,
        latency: u32,
        to: u32,
        steps: &mut Steps<L>,
    ) -> bool
        requires laned { laned self.old lanes.old }
        requires from { AreRegistersBelow (Self.seen self.old).registers (locations_from from) }
        requires below { to < (Self.seen self.old).registers }
        ensures laned { laned self.new lanes.new }
        ensures given { result ≡ true → with_lanes lanes.new (Self.seen self.new) ≡ made (at_once (λ t. given_to (Register to) (operated (locations_from from) latency t))) (with_lanes lanes.old (Self.seen self.old)) }
        ensures steps { result ≡ true → steps.new ≡ steps.old + (1 + length (locations_from from)) * levels (with_lanes lanes.old (Self.seen self.old)) }
        ensures same { result ≡ false → with_lanes lanes.new (Self.seen self.new) ≡ with_lanes lanes.old (Self.seen self.old) }
        ensures none { result ≡ false → steps.new ≡ steps.old };

    /// The same, where the operation also depends on an element.
    fn load_lanes<V: TimeLanes, L: Ledger>(
        &mut self,
        lanes: &mut Lanes<V>,
        from: From,
        element: u32,
        latency: u32,
        to: u32,
        steps: &mut Steps<L>,
    ) -> bool
        requires laned { laned self.old lanes.old }
        requires from { AreRegistersBelow (Self.seen self.old).registers (locations_from from) }
        requires element { element < (Self.seen self.old).elements }
        requires below { to < (Self.seen self.old).registers }
        ensures laned { laned self.new lanes.new }
        ensures given { result ≡ true → with_lanes lanes.new (Self.seen self.new) ≡ made (at_once (λ t. given_to (Register to) (operated (locations_from from ++ Element element ∷ []) latency t))) (with_lanes lanes.old (Self.seen self.old)) }
        ensures steps { result ≡ true → steps.new ≡ steps.old + (1 + length (locations_from from ++ Element element ∷ [])) * levels (with_lanes lanes.old (Self.seen self.old)) }
        ensures same { result ≡ false → with_lanes lanes.new (Self.seen self.new) ≡ with_lanes lanes.old (Self.seen self.old) }
        ensures none { result ≡ false → steps.new ≡ steps.old };

    /// An operation is made at once that depends on registers, and an element holds what it gave.
    fn store_lanes<V: TimeLanes, L: Ledger>(
        &mut self,
        lanes: &mut Lanes<V>,
        from: From,
        latency: u32,
        element: u32,
        steps: &mut Steps<L>,
    ) -> bool
        requires laned { laned self.old lanes.old }
        requires from { AreRegistersBelow (Self.seen self.old).registers (locations_from from) }
        requires below { element < (Self.seen self.old).elements }
        ensures laned { laned self.new lanes.new }
        ensures given { result ≡ true → with_lanes lanes.new (Self.seen self.new) ≡ made (at_once (λ t. given_to (Element element) (operated (locations_from from) latency t))) (with_lanes lanes.old (Self.seen self.old)) }
        ensures steps { result ≡ true → steps.new ≡ steps.old + (1 + length (locations_from from)) * levels (with_lanes lanes.old (Self.seen self.old)) }
        ensures same { result ≡ false → with_lanes lanes.new (Self.seen self.new) ≡ with_lanes lanes.old (Self.seen self.old) }
        ensures none { result ≡ false → steps.new ≡ steps.old };

    /// An operation is made at once that depends on registers, and is the control source.
    fn test_lanes<V: TimeLanes, L: Ledger>(
        &mut self,
        lanes: &mut Lanes<V>,
        from: From,
        latency: u32,
        steps: &mut Steps<L>,
    ) -> bool
        requires laned { laned self.old lanes.old }
        requires from { AreRegistersBelow (Self.seen self.old).registers (locations_from from) }
        ensures laned { laned self.new lanes.new }
        ensures given { result ≡ true → with_lanes lanes.new (Self.seen self.new) ≡ made (at_once (λ t. given_to Control (operated (locations_from from) latency t))) (with_lanes lanes.old (Self.seen self.old)) }
        ensures steps { result ≡ true → steps.new ≡ steps.old + (1 + length (locations_from from)) * levels (with_lanes lanes.old (Self.seen self.old)) }
        ensures same { result ≡ false → with_lanes lanes.new (Self.seen self.new) ≡ with_lanes lanes.old (Self.seen self.old) }
        ensures none { result ≡ false → steps.new ≡ steps.old };

    /// A register holds what no operation gave.
    fn clear_lanes<V: TimeLanes>(&mut self, lanes: &Lanes<V>, to: u32)
        requires laned { laned self.old lanes.now }
        requires below { to < (Self.seen self.old).registers }
        ensures laned { laned self.new lanes.now }
        ensures cleared { with_lanes lanes.now (Self.seen self.new) ≡ made (registers_cleared to 1) (with_lanes lanes.now (Self.seen self.old)) };

    /// Makes room for a call, whose parameters are in the registers from this one on, and which enters an instance. It answers false where a call may not be
    /// made in lanes.
    fn admit_call<V: TimeLanes>(
        &mut self,
        lanes: &Lanes<V>,
        to: u32,
        params: u32,
        latency: u32,
        depth: u32,
        opened: u64,
    ) -> bool
        requires laned { laned self.old lanes.now }
        requires to { to + params ≤ (Self.seen self.old).registers }
        ensures laned { laned self.new lanes.now }
        ensures same { Self.seen self.new ≡ Self.seen self.old }
        ensures calls { result ≡ true → calls self.new to params latency }
        ensures enters { result ≡ true → enters self.new lanes.now depth opened };

    /// A call is made: its operation depends on the operands, whose values are handed to the parameters. The caller's registers are numbered from `first`
    /// on, those of the new call from `to` on. There are no more operands than parameters.
    fn call_lanes<V: TimeLanes, L: Ledger>(
        &mut self,
        lanes: &mut Lanes<V>,
        first: u32,
        to: u32,
        params: u32,
        args: &[Arg],
        latency: u32,
        steps: &mut Steps<L>,
    )
        requires laned { laned self.old lanes.old }
        requires calls { calls self.old to params latency }
        requires args { AreBelow first (Self.seen self.old).registers args.now }
        requires to { to + params ≤ (Self.seen self.old).registers }
        requires few { length args.now ≤ params }
        requires small { to + params < 2 ^ 32 }
        ensures laned { laned self.new lanes.new }
        ensures called { with_lanes lanes.new (Self.seen self.new) ≡ made (at_once (λ t. settled latency (arguments_handed first to params args.now (begun t)))) (with_lanes lanes.old (Self.seen self.old)) }
        ensures enters { (depth opened : ℕ) → enters self.old lanes.old depth opened → enters self.new lanes.new depth opened }
        ensures least { steps.old ≤ steps.new }
        ensures steps { steps.new ≤ steps.old + (1 + length args.now) * levels (with_lanes lanes.old (Self.seen self.old)) };

    /// Enters an instance where so many are open, of which those below the depth have levels. It answers false where no lane is left for a level more,
    /// or where entries are no longer counted in 32 bits.
    fn enter_lanes<V: TimeLanes>(&mut self, lanes: &mut Lanes<V>, depth: u32, opened: u64) -> bool
        requires { laned self.old lanes.old }
        ensures laned { laned self.new lanes.new }
        ensures sure { enters self.old lanes.old depth opened → result ≡ true }
        ensures entered { result ≡ true → with_lanes lanes.new (Self.seen self.new) ≡ instance_entered depth opened (with_lanes lanes.old (Self.seen self.old)) }
        ensures same { result ≡ false → with_lanes lanes.new (Self.seen self.new) ≡ with_lanes lanes.old (Self.seen self.old) };

    /// An operation is made that depends on registers, and its times are told: no location has them yet, and a register may get them. Where the lanes that
    /// were there stand again, nothing has changed that is seen. It answers none, and changes nothing, where that is not so.
    fn move_lanes<V: TimeLanes, L: Ledger>(
        &mut self,
        lanes: &mut Lanes<V>,
        from: From,
        latency: u32,
        to: u32,
        steps: &mut Steps<L>,
    ) -> Option<V>
        requires laned { laned self.old lanes.old }
        requires from { AreRegistersBelow (Self.seen self.old).registers (locations_from from) }
        requires below { to < (Self.seen self.old).registers }
        ensures same { Self.seen self.new ≡ Self.seen self.old }
        ensures laned { laned self.new lanes.new }
        ensures back { laned self.new lanes.old }
        ensures operated { IfSome result (λ times. IsOperated (locations_from from) latency (with_lanes lanes.old (Self.seen self.old)) (at_levels (levels (Self.seen self.old)) (V.time times)) (with_lanes lanes.new (Self.seen self.old))) }
        ensures gets { IfSome result (λ times. gets self.new to (at_levels (levels (Self.seen self.old)) (V.time times))) }
        ensures steps { IfSome result (λ times. steps.new ≡ steps.old + (1 + length (locations_from from)) * levels (with_lanes lanes.old (Self.seen self.old))) }
        ensures untouched { result ≡ None → lanes.new ≡ lanes.old }
        ensures none { result ≡ None → steps.new ≡ steps.old };

    /// A register gets these times.
    fn hold_lanes<V: TimeLanes>(&mut self, lanes: &Lanes<V>, to: u32, times: V)
        requires laned { laned self.old lanes.now }
        requires below { to < (Self.seen self.old).registers }
        requires gets { gets self.old to (at_levels (levels (Self.seen self.old)) (V.time times)) }
        ensures laned { laned self.new lanes.now }
        ensures held { with_lanes lanes.now (Self.seen self.new) ≡ made (register_held to (at_levels (levels (Self.seen self.old)) (V.time times))) (with_lanes lanes.now (Self.seen self.old)) };

    /// Leaves the innermost of so many open instances, of which those below the depth have levels.
    fn leave_lanes<V: TimeLanes>(&mut self, lanes: &Lanes<V>, depth: u32, opened: u64)
        requires laned { laned self.old lanes.now }
        requires live { opened ≤ depth → 0 < levels (with_lanes lanes.now (Self.seen self.old)) }
        ensures laned { laned self.new lanes.now }
        ensures left { with_lanes lanes.now (Self.seen self.new) ≡ made (left_below depth opened) (with_lanes lanes.now (Self.seen self.old)) };

    /// Saves the control source, which stays the current one. It answers false where it finds no memory.
    fn save_lanes<V: TimeLanes>(&mut self, lanes: &Lanes<V>) -> bool
        requires { laned self.old lanes.now }
        ensures laned { laned self.new lanes.now }
        ensures saved { result ≡ true → with_lanes lanes.now (Self.seen self.new) ≡ made control_saved (with_lanes lanes.now (Self.seen self.old)) }
        ensures same { result ≡ false → with_lanes lanes.now (Self.seen self.new) ≡ with_lanes lanes.now (Self.seen self.old) };

    /// Drops the newest saved control source.
    fn keep_lanes<V: TimeLanes>(&mut self, lanes: &Lanes<V>)
        requires laned { laned self.old lanes.now }
        requires some { 0 < length (Self.seen self.old).timing.saved }
        ensures laned { laned self.new lanes.now }
        ensures dropped { with_lanes lanes.now (Self.seen self.new) ≡ made control_kept (with_lanes lanes.now (Self.seen self.old)) };

    /// Makes the newest saved control source the current one, and drops it.
    fn back_lanes<V: TimeLanes>(&mut self, lanes: &mut Lanes<V>)
        requires laned { laned self.old lanes.old }
        requires some { 0 < length (Self.seen self.old).timing.saved }
        ensures laned { laned self.new lanes.new }
        ensures back { with_lanes lanes.new (Self.seen self.new) ≡ made control_back (with_lanes lanes.old (Self.seen self.old)) };

    /// Makes the newest saved control source the current one, which stays saved. It answers false where it finds no memory.
    fn restore_lanes<V: TimeLanes>(&mut self, lanes: &mut Lanes<V>) -> bool
        requires laned { laned self.old lanes.old }
        requires some { 0 < length (Self.seen self.old).timing.saved }
        ensures laned { laned self.new lanes.new }
        ensures restored { result ≡ true → with_lanes lanes.new (Self.seen self.new) ≡ made control_restored (with_lanes lanes.old (Self.seen self.old)) }
        ensures same { result ≡ false → with_lanes lanes.new (Self.seen self.new) ≡ with_lanes lanes.old (Self.seen self.old) };
}
