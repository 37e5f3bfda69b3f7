//! The contract of the times of all locations.
ghost use Rattle.std.specs.Prelude.{◌≡◌, ℕ, ◌+◌, ◌*◌, ◌-◌, ◌^◌, ◌<◌, ◌≤◌, min, [], ◌∷◌, length, OnOk};
ghost use Rattle.k_hcpa_meaning.specs.Timings.{Register, Element, InCell, OutCell, Control, begun, raised, raised_all, settled, operated, given_to, registers_cleared, elements_cleared, control_saved, control_restored, control_kept, control_back, saved_kept, innermost_gone, left_below, all_left_below};
ghost use Rattle.k_hcpa_meaning.specs.Locations.{operand_locations};
ghost use Rattle.k_hcpa_meaning.specs.Calls.{handed, arguments_handed};
ghost use Rattle.k_hcpa_times.specs.AtOnce.{at_once};
ghost use Rattle.k_hcpa_times.specs.Seen.{Seen, Room, ForRegister, ForElement, ForLatency, ForSaved, Keeps, KeepsPlaces, HasRegisters, AreBelow, levels, made, level_entered, instance_entered};

use k_code::Arg;
use k_num::NoMemory;
use k_shadow::Steps;
use std::sync::ledger::Ledger;

/// The times of all locations at each live level, those of the operation that is being made, and the weight of the heaviest path so far.
///
/// Registers are numbered among those of all live calls, and elements among those of all objects. Each read of a location's times at a live
/// level is one step; the times of the operation, and the paths, are no location's.
pub trait Timed: Drop {
    /// The times, the count of entries into levels so far, and the limits of registers and of elements.
    ghost seen: { Self → Seen };

    /// What there is room for. All room is lost where a level is entered or left.
    ghost room: { Self → Room → Type 0 };

    /// How many levels are live.
    fn levels(&self) -> usize
        ensures count { result ≡ levels (seen self.now) }
        ensures few { result ≤ 32 };

    /// The weight of the heaviest path since each live level's instance began, outermost first.
    fn paths(&self) -> &[u64]
        ensures { result.now ≡ (seen self.now).timing.paths };

    /// Enters a level.
    fn enter(&mut self)
        requires shallow { levels (seen self.old) < 32 }
        requires few { (seen self.old).entries < 2 ^ 62 }
        ensures entered { seen self.new ≡ level_entered (seen self.old) };

    /// Leaves the innermost level.
    fn leave(&mut self)
        requires { 0 < levels (seen self.old) }
        ensures left { seen self.new ≡ made innermost_gone (seen self.old) };

    /// Makes room for an operation that takes so long, until one is made. Other room may be lost.
    fn admit(&mut self, latency: u64)
        ensures same { seen self.new ≡ seen self.old }
        ensures room { room self.new (ForLatency latency) };

    /// Makes room for the `count` registers from `first` on. A refusal may have made room for some.
    fn reserve_registers(&mut self, first: u32, count: u32) -> Result<(), NoMemory>
        requires { first + count ≤ (seen self.old).registers }
        ensures same { seen self.new ≡ seen self.old }
        ensures room { OnOk result (HasRegisters first count (room self.new)) }
        ensures kept { Keeps (room self.old) (room self.new) };

    /// Makes room for an element.
    fn reserve_element(&mut self, element: u32) -> Result<(), NoMemory>
        requires { element < (seen self.old).elements }
        ensures same { seen self.new ≡ seen self.old }
        ensures room { OnOk result (room self.new (ForElement element)) }
        ensures kept { Keeps (room self.old) (room self.new) };

    /// Makes room for one control source more to be saved, which lasts until it is.
    fn reserve_saved(&mut self) -> Result<(), NoMemory>
        ensures same { seen self.new ≡ seen self.old }
        ensures room { OnOk result (room self.new ForSaved) }
        ensures kept { Keeps (room self.old) (room self.new) };

    /// Begins an operation, whose times are the control source's.
    fn begin<L: Ledger>(&mut self, steps: &mut Steps<L>)
        ensures begun { seen self.new ≡ made begun (seen self.old) }
        ensures kept { Keeps (room self.old) (room self.new) }
        ensures steps { steps.new ≡ steps.old + levels (seen self.old) };

    /// The operation depends on what a register holds.
    fn raise_register<L: Ledger>(&mut self, register: u32, steps: &mut Steps<L>)
        requires { register < (seen self.old).registers }
        ensures raised { seen self.new ≡ made (raised (Register register)) (seen self.old) }
        ensures kept { Keeps (room self.old) (room self.new) }
        ensures steps { steps.new ≡ steps.old + levels (seen self.old) };

    /// The operation depends on what an element holds.
    fn raise_element<L: Ledger>(&mut self, element: u32, steps: &mut Steps<L>)
        requires { element < (seen self.old).elements }
        ensures raised { seen self.new ≡ made (raised (Element element)) (seen self.old) }
        ensures kept { Keeps (room self.old) (room self.new) }
        ensures steps { steps.new ≡ steps.old + levels (seen self.old) };

    /// The operation depends on what was read before it.
    fn raise_input<L: Ledger>(&mut self, steps: &mut Steps<L>)
        ensures raised { seen self.new ≡ made (raised InCell) (seen self.old) }
        ensures kept { Keeps (room self.old) (room self.new) }
        ensures steps { steps.new ≡ steps.old + levels (seen self.old) };

    /// The operation depends on what was written before it.
    fn raise_output<L: Ledger>(&mut self, steps: &mut Steps<L>)
        ensures raised { seen self.new ≡ made (raised OutCell) (seen self.old) }
        ensures kept { Keeps (room self.old) (room self.new) }
        ensures steps { steps.new ≡ steps.old + levels (seen self.old) };

    /// The operation has all its operands, and takes so long.
    fn settle(&mut self, latency: u64)
        requires room { room self.old (ForLatency latency) }
        ensures settled { seen self.new ≡ made (settled latency) (seen self.old) }
        ensures kept { KeepsPlaces (room self.old) (room self.new) };

    /// Tells what the paths will be once the operation is settled with this latency; nothing is changed.
    fn paths_behind(&self, latency: u64, paths: &mut [u64])
        requires { length paths.old ≡ levels (seen self.now) }
        ensures { paths.new ≡ (settled latency (seen self.now).timing).paths };

    /// A register holds what the operation gave.
    fn give_register(&mut self, register: u32)
        requires below { register < (seen self.old).registers }
        requires room { room self.old (ForRegister register) }
        ensures given { seen self.new ≡ made (given_to (Register register)) (seen self.old) }
        ensures kept { Keeps (room self.old) (room self.new) };

    /// An operation is made at once that depends on the control source alone, and a register holds what it gave.
    fn give_after_none<L: Ledger>(&mut self, latency: u64, to: u32, steps: &mut Steps<L>)
        requires below { to < (seen self.old).registers }
        requires room { room self.old (ForRegister to) }
        requires latency { room self.old (ForLatency latency) }
        ensures given { seen self.new ≡ made (at_once (λ t. given_to (Register to) (operated [] latency t))) (seen self.old) }
        ensures kept { KeepsPlaces (room self.old) (room self.new) }
        ensures steps { steps.new ≡ steps.old + levels (seen self.old) };

    /// An operation is made at once that depends on one register, and a register holds what it gave.
    fn give_after_one<L: Ledger>(&mut self, from: u32, latency: u64, to: u32, steps: &mut Steps<L>)
        requires from { from < (seen self.old).registers }
        requires below { to < (seen self.old).registers }
        requires room { room self.old (ForRegister to) }
        requires latency { room self.old (ForLatency latency) }
        ensures given { seen self.new ≡ made (at_once (λ t. given_to (Register to) (operated (Register from ∷ []) latency t))) (seen self.old) }
        ensures kept { KeepsPlaces (room self.old) (room self.new) }
        ensures steps { steps.new ≡ steps.old + 2 * levels (seen self.old) };

    /// An operation is made at once that depends on two registers, and a register holds what it gave.
    fn give_after_two<L: Ledger>(
        &mut self,
        left: u32,
        right: u32,
        latency: u64,
        to: u32,
        steps: &mut Steps<L>,
    )
        requires left { left < (seen self.old).registers }
        requires right { right < (seen self.old).registers }
        requires below { to < (seen self.old).registers }
        requires room { room self.old (ForRegister to) }
        requires latency { room self.old (ForLatency latency) }
        ensures given { seen self.new ≡ made (at_once (λ t. given_to (Register to) (operated (Register left ∷ Register right ∷ []) latency t))) (seen self.old) }
        ensures kept { KeepsPlaces (room self.old) (room self.new) }
        ensures steps { steps.new ≡ steps.old + 3 * levels (seen self.old) };

    /// An element holds what the operation gave.
    fn give_element(&mut self, element: u32)
        requires below { element < (seen self.old).elements }
        requires room { room self.old (ForElement element) }
        ensures given { seen self.new ≡ made (given_to (Element element)) (seen self.old) }
        ensures kept { Keeps (room self.old) (room self.new) };

    /// The operation was the newest that read.
    fn give_input(&mut self)
        ensures given { seen self.new ≡ made (given_to InCell) (seen self.old) }
        ensures kept { Keeps (room self.old) (room self.new) };

    /// The operation was the newest that wrote.
    fn give_output(&mut self)
        ensures given { seen self.new ≡ made (given_to OutCell) (seen self.old) }
        ensures kept { Keeps (room self.old) (room self.new) };

    /// The operation is the control source.
    fn give_control(&mut self)
        ensures given { seen self.new ≡ made (given_to Control) (seen self.old) }
        ensures kept { Keeps (room self.old) (room self.new) };

    /// Hands what a register holds to a parameter's register, for which it is read once; the operation depends on it unless that dependence is broken.
    fn hand<L: Ledger>(&mut self, from: u32, broken: bool, to: u32, steps: &mut Steps<L>)
        requires from { from < (seen self.old).registers }
        requires to { to < (seen self.old).registers }
        requires room { room self.old (ForRegister to) }
        ensures handed { seen self.new ≡ made (handed from broken to) (seen self.old) }
        ensures kept { Keeps (room self.old) (room self.new) }
        ensures steps { steps.new ≡ steps.old + levels (seen self.old) };

    /// The `count` registers from `first` on hold what no operation gave.
    fn clear_registers(&mut self, first: u32, count: u32)
        requires { first + count ≤ (seen self.old).registers }
        ensures cleared { seen self.new ≡ made (registers_cleared first count) (seen self.old) }
        ensures kept { Keeps (room self.old) (room self.new) };

    /// The `count` elements from `first` on hold what no operation gave.
    fn clear_elements(&mut self, first: u32, count: u32)
        requires { first + count ≤ (seen self.old).elements }
        ensures cleared { seen self.new ≡ made (elements_cleared first count) (seen self.old) }
        ensures kept { Keeps (room self.old) (room self.new) };

    /// How many control sources are saved.
    fn saved(&self) -> usize
        ensures { result ≡ length (seen self.now).timing.saved };

    /// Saves the control source, which stays the current one.
    fn save(&mut self)
        requires { room self.old ForSaved }
        ensures saved { seen self.new ≡ made control_saved (seen self.old) }
        ensures registers { (r : ℕ) → room self.old (ForRegister r) → room self.new (ForRegister r) }
        ensures elements { (e : ℕ) → room self.old (ForElement e) → room self.new (ForElement e) };

    /// Drops the newest saved control source.
    fn keep(&mut self)
        requires { 0 < length (seen self.old).timing.saved }
        ensures dropped { seen self.new ≡ made control_kept (seen self.old) }
        ensures kept { Keeps (room self.old) (room self.new) };

    /// Makes the newest saved control source the current one, and drops it.
    fn back(&mut self)
        requires { 0 < length (seen self.old).timing.saved }
        ensures back { seen self.new ≡ made control_back (seen self.old) }
        ensures kept { Keeps (room self.old) (room self.new) };

    /// Makes the newest saved control source the current one, which stays saved.
    fn restore(&mut self)
        requires saved { 0 < length (seen self.old).timing.saved }
        requires room { room self.old ForSaved }
        ensures restored { seen self.new ≡ made control_restored (seen self.old) }
        ensures registers { (r : ℕ) → room self.old (ForRegister r) → room self.new (ForRegister r) }
        ensures elements { (e : ℕ) → room self.old (ForElement e) → room self.new (ForElement e) };

    /// The operation depends on what the register of an operand holds, which is numbered from `first` on, unless that dependence is broken.
    #[inline]
    fn raise_arg<L: Ledger>(&mut self, first: u32, arg: Arg, steps: &mut Steps<L>)
        requires { AreBelow first (seen self.old).registers (arg ∷ []) }
        ensures raised { seen self.new ≡ made (raised_all (operand_locations first (arg ∷ []))) (seen self.old) }
        ensures kept { Keeps (room self.old) (room self.new) }
        ensures steps { steps.new ≡ steps.old + length (operand_locations first (arg ∷ [])) * levels (seen self.old) }
    {
        match arg {
            Arg::Number(_) => {}
            Arg::Reg(register, broken) => {
                if !broken {
                    self.raise_register(first + register, steps);
                }
            }
        }
    }

    /// The operation depends on what the registers of these operands hold, which are numbered from `first` on, but for those whose dependence is broken.
    fn raise_all<L: Ledger>(&mut self, first: u32, args: &[Arg], steps: &mut Steps<L>)
        requires { AreBelow first (seen self.old).registers args.now }
        ensures raised { seen self.new ≡ made (raised_all (operand_locations first args.now)) (seen self.old) }
        ensures kept { Keeps (room self.old) (room self.new) }
        ensures steps { steps.new ≡ steps.old + length (operand_locations first args.now) * levels (seen self.old) }
    {
        let mut rest = args;
        while let Some((arg, more)) = rest.split_first() {
            self.raise_arg(first, *arg, steps);
            rest = more;
        }
    }

    /// An operation is made that depends on these operands.
    fn operate<L: Ledger>(&mut self, first: u32, args: &[Arg], latency: u64, steps: &mut Steps<L>)
        requires args { AreBelow first (seen self.old).registers args.now }
        requires latency { room self.old (ForLatency latency) }
        ensures operated { seen self.new ≡ made (operated (operand_locations first args.now) latency) (seen self.old) }
        ensures kept { KeepsPlaces (room self.old) (room self.new) }
        ensures steps { steps.new ≡ steps.old + (1 + length (operand_locations first args.now)) * levels (seen self.old) }
    {
        self.begin(steps);
        self.raise_all(first, args, steps);
        self.settle(latency);
    }

    /// Hands the value of an operand to a parameter's register; the operation depends on it unless it is a constant or that dependence is broken.
    #[inline]
    fn hand_arg<L: Ledger>(&mut self, first: u32, arg: Arg, to: u32, steps: &mut Steps<L>)
        requires arg { AreBelow first (seen self.old).registers (arg ∷ []) }
        requires to { to < (seen self.old).registers }
        requires room { room self.old (ForRegister to) }
        ensures handed { seen self.new ≡ made (arguments_handed first to 1 (arg ∷ [])) (seen self.old) }
        ensures kept { Keeps (room self.old) (room self.new) }
        ensures least { steps.old ≤ steps.new }
        ensures steps { steps.new ≤ steps.old + levels (seen self.old) }
    {
        match arg {
            Arg::Number(_) => self.clear_registers(to, 1),
            Arg::Reg(register, broken) => self.hand(first + register, broken, to, steps),
        }
    }

    /// Hands the values of operands to the `count` parameters whose registers are numbered from `to` on; the operation depends on operands without a
    /// parameter too.
    fn hand_all<L: Ledger>(
        &mut self,
        first: u32,
        to: u32,
        count: u32,
        args: &[Arg],
        steps: &mut Steps<L>,
    )
        requires args { AreBelow first (seen self.old).registers args.now }
        requires to { to + count ≤ (seen self.old).registers }
        requires small { to + count < 2 ^ 32 }
        requires room { HasRegisters to count (room self.old) }
        ensures handed { seen self.new ≡ made (arguments_handed first to count args.now) (seen self.old) }
        ensures kept { Keeps (room self.old) (room self.new) }
        ensures least { steps.old ≤ steps.new }
        ensures steps { steps.new ≤ steps.old + length args.now * levels (seen self.old) }
    {
        let mut rest = args;
        let mut given = 0;
        while given < count {
            let Some((arg, more)) = rest.split_first() else {
                return;
            };
            self.hand_arg(first, *arg, to + given, steps);
            rest = more;
            given += 1;
        }
        self.raise_all(first, rest, steps);
    }

    /// Drops the newest saved control sources, until `count` are left.
    fn keep_saved(&mut self, count: usize)
        ensures dropped { seen self.new ≡ made (saved_kept count) (seen self.old) }
        ensures kept { Keeps (room self.old) (room self.new) }
    {
        while self.saved() > count {
            self.keep();
        }
    }

    /// Enters an instance where `count` are open, of which those below the depth have levels.
    fn enter_below(&mut self, depth: u32, count: u64)
        requires shallow { count < depth → levels (seen self.old) < 32 }
        requires few { (seen self.old).entries < 2 ^ 62 }
        ensures entered { seen self.new ≡ instance_entered depth count (seen self.old) }
    {
        if count < depth as u64 {
            self.enter();
        }
    }

    /// Leaves the innermost of `count` open instances, of which those below the depth have levels.
    #[inline]
    fn leave_below(&mut self, depth: u32, count: u64)
        requires { count ≤ depth → 0 < levels (seen self.old) }
        ensures left { seen self.new ≡ made (left_below depth count) (seen self.old) }
    {
        if count <= depth as u64 {
            self.leave();
        }
    }

    /// Leaves the innermost `regions` of `count` open instances, of which those below the depth have levels.
    fn leave_all(&mut self, depth: u32, count: u64, regions: u64)
        requires levels { levels (seen self.old) ≡ min depth count }
        requires open { regions ≤ count }
        ensures left { seen self.new ≡ made (all_left_below depth count regions) (seen self.old) }
    {
        for left in 0..regions {
            self.leave_below(depth, count - left);
        }
    }
}
