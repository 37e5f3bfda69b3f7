//! The store: each instruction of flat code by its exact step.
ghost use Rattle.std.specs.Prelude.{◌≡◌, ℕ, ◌+◌, ◌^◌, ◌<◌, ◌≤◌, [], ◌∷◌, length, List, Option, IfSome, OnOk, Some, slice_get, true};
ghost use Rattle.k_optab.specs.declared.class.Class.{Class};
ghost use Rattle.k_optab.specs.declared.event.Event.TheVariants.{Enter, Exit};
ghost use Rattle.k_world.specs.declared.act.Act.{Act};
ghost use Rattle.k_code.specs.declared.code.CodeFunc.{CodeFunc};
ghost use Rattle.k_code.specs.declared.instruction.Arg.{Arg};
ghost use Rattle.k_code.specs.declared.instruction.Do.TheVariants as act;
ghost use Rattle.k_code.specs.Finds.{Finds};
ghost use Rattle.k_code.specs.Steps.{reads_of};
ghost use Rattle.k_code.specs.Valid.{IsValid};
ghost use Rattle.k_hcpa_meaning.specs.Locations.{first_register as first_meant, frames_of, saved_in, waiting_frames, width, widths};
ghost use Rattle.k_hcpa_store.specs.Kept.{configuration_of};
ghost use Rattle.k_hcpa_store.specs.Leads.{Calls, CallsSurely, GoesAlone, GoesOn, IsNext, Leaves, MakesBy, MayReturn, Operates, Starts, back_register as back_meant, goes_alone, goes_by, may_leave, source_read, stored_element};

use crate::state::State;
use crate::{Alone, Calling};
use k_code::{Arg, Code, Instr};
use k_ending::End;
use k_num::NoMemory;
use k_world::{Done, Read, Stop};
use std::alloc::Global;
use std::marker::Model;

mod sure;

/// An exact configuration of flat code with its sources, but without its events and without the output that was taken.
#[derive(Drop)]
pub struct Store<'a> {
    state: State<'a>,
}

impl<'a> Model for Store<'a> {
    ghost use Rattle.k_hcpa_store.specs.Kept.{Kept};
    ghost use Rattle.k_hcpa_store.specs.Sound.{IsSound};

    ghost Value = { Kept };

    ghost view = { λ s. s.state };

    ghost invariant = { λ s. IsSound s.state };
}

impl<'a> Store<'a> {
    /// A run of valid code begins, of at most so many operations; or it has ended at once.
    pub fn start(
        alloc: Global,
        code: &'a Code,
        input: &'a [u8],
        budget: u64,
    ) -> Result<Store<'a>, Stop>
        requires { IsValid code.now }
        ensures { Starts code.now input.now budget result }
    {
        match State::start(alloc, code, input, budget) {
            Ok(state) => Ok(Store { state }),
            Err(stop) => Err(stop),
        }
    }

    /// The code that is run.
    #[inline(always)]
    pub fn code(&self) -> &'a Code
        ensures { result.now ≡ self.now.code }
    {
        self.state.code()
    }

    /// The instruction that is next.
    #[inline(always)]
    pub fn instruction(&self) -> &'a Instr
        requires { Finds self.now.code (configuration_of self.now) }
        ensures { IsNext self.now result.now }
    {
        self.state.instruction()
    }

    /// The number of the instruction that is next.
    #[tactic(auto, unfolding(crate::specs::Kept::configuration_of))]
    #[inline(always)]
    pub fn pc(&self) -> usize
        ensures { result ≡ (configuration_of self.now).pc }
    {
        self.state.pc()
    }

    /// Does an instruction that makes an operation and goes on in its call.
    #[inline(always)]
    pub fn operate(&mut self, instr: &'a Instr) -> Result<Done, Stop>
        requires { IsNext self.old instr.now }
        ensures { (o : Class × Act) → goes_by instr.now.act ≡ Some o → Operates self.old instr.now o result self.new }
    {
        self.state.operate(instr)
    }

    /// The same, where what is told of the operation itself is needed too: the value that it gives.
    #[inline(always)]
    pub fn make(&mut self, instr: &'a Instr) -> Result<Done, Stop>
        requires { IsNext self.old instr.now }
        ensures operates { (o : Class × Act) → goes_by instr.now.act ≡ Some o → Operates self.old instr.now o result self.new }
        ensures made { (o : Class × Act) → goes_by instr.now.act ≡ Some o → MakesBy self.old instr.now o result self.new }
    {
        self.state.operate(instr)
    }

    /// Does an instruction that makes no operation, is no return, and enters and leaves no region.
    pub fn alone(&mut self, instr: &'a Instr) -> Result<Alone, Stop>
        requires next { IsNext self.old instr.now }
        requires alone { goes_alone instr.now.act ≡ true }
        ensures { GoesAlone self.old instr.now.act result self.new }
    {
        self.state.alone(instr)
    }

    /// Enters a region, of which the instruction has the number.
    pub fn enter(&mut self, instr: &'a Instr)
        requires next { IsNext self.old instr.now }
        requires enters { (region : ℕ) × (instr.now.act ≡ act.Enter region) }
        requires few { (configuration_of self.old).frame.regions + 1 < 2 ^ 62 }
        ensures { (region : ℕ) → instr.now.act ≡ act.Enter region → GoesOn self.old (Enter region ∷ []) self.new }
    {
        self.state.enter(instr);
    }

    /// Leaves the newest region that was entered.
    pub fn exit(&mut self, instr: &'a Instr)
        requires next { IsNext self.old instr.now }
        requires exit { instr.now.act ≡ act.Exit }
        ensures { GoesOn self.old (Exit ∷ []) self.new }
    {
        self.state.exit(instr);
    }

    /// Calls a function, by an operation.
    pub fn call(&mut self, instr: &'a Instr) -> Result<Calling, Stop>
        requires { IsNext self.old instr.now }
        ensures { (func : ℕ) (args : List Arg) (to : Option ℕ) (f : CodeFunc) → instr.now.act ≡ act.Call func args to → slice_get self.old.code.funcs func ≡ Some f → Calls self.old instr.now f result self.new }
    {
        self.state.call(instr)
    }

    /// The same where that is sure: it answers false where nothing is changed.
    pub fn call_surely(&mut self, instr: &'a Instr) -> bool
        requires { IsNext self.old instr.now }
        ensures { (func : ℕ) (args : List Arg) (to : Option ℕ) (f : CodeFunc) → instr.now.act ≡ act.Call func args to → slice_get self.old.code.funcs func ≡ Some f → CallsSurely self.old instr.now f result self.new }
    {
        self.state.call_surely(instr)
    }

    /// The element that a store would write, for any other instruction none.
    pub fn element_to_store(&self, instr: &Instr) -> Option<u32>
        ensures { result ≡ stored_element (configuration_of self.now) instr.now.act }
    {
        self.state.element_to_store(instr)
    }

    /// What the operands of an instruction of the newest call read, in a list that is kept for them.
    pub fn read_operands(&self, reads: &mut Vec<Read>, instr: &Instr) -> Result<(), NoMemory>
        ensures { OnOk result (reads.new.items ≡ reads_of (configuration_of self.now) instr.now.act) }
    {
        self.state.read_operands(reads, instr)
    }

    /// The operation that gave what an operand of the newest call reads, if one did.
    #[inline(always)]
    pub fn source(&self, arg: &Arg) -> Option<u64>
        ensures { result ≡ source_read (configuration_of self.now) arg.now }
    {
        self.state.source(arg)
    }

    /// The current control source.
    #[tactic(auto, unfolding(crate::specs::Kept::configuration_of))]
    #[inline(always)]
    pub fn control(&self) -> Option<u64>
        ensures { result ≡ (configuration_of self.now).world.control }
    {
        self.state.control()
    }

    /// Whether a return may be made; else how the run ends.
    pub fn may_return(&self, instr: &Instr) -> Result<(), End>
        requires { IsNext self.now instr.now }
        ensures { (value : Option Arg) → instr.now.act ≡ act.Return value → MayReturn self.now instr.now result }
    {
        self.state.may_return(instr)
    }

    /// Does a return that may be made: the caller goes on, or the run is over.
    pub fn leave(&mut self, instr: &'a Instr) -> Option<End>
        requires next { IsNext self.old instr.now }
        requires may { may_leave (configuration_of self.old) instr.now.act ≡ true }
        ensures { (value : Option Arg) → instr.now.act ≡ act.Return value → Leaves self.old instr.now result self.new }
    {
        self.state.leave_by(instr)
    }

    /// How many regions a return leaves.
    #[tactic(auto, unfolding(crate::specs::Kept::configuration_of))]
    #[inline(always)]
    pub fn regions(&self) -> u64
        ensures { result ≡ (configuration_of self.now).frame.regions + 1 }
    {
        self.state.regions()
    }

    /// How many operations were made.
    #[tactic(auto, unfolding(crate::specs::Kept::configuration_of))]
    #[inline(always)]
    pub fn made(&self) -> u64
        ensures { result ≡ (configuration_of self.now).world.made }
    {
        self.state.made()
    }

    /// The output that was not yet taken.
    #[tactic(auto, unfolding(crate::specs::Kept::configuration_of))]
    #[inline(always)]
    pub fn pending(&self) -> &[u8]
        ensures { result.now ≡ (configuration_of self.now).world.output }
    {
        self.state.pending()
    }

    /// The output is taken.
    #[tactic(auto, unfolding(crate::specs::Kept::configuration_of))]
    pub fn drop_pending(&mut self)
        ensures code { self.new.code ≡ self.old.code }
        ensures dropped { configuration_of self.new ≡ record (configuration_of self.old) { world = record (configuration_of self.old).world { output = [] } } }
    {
        self.state.drop_pending();
    }

    /// How many control sources the older calls have saved.
    pub fn saved_before(&self) -> usize
        ensures { result ≡ length (saved_in (waiting_frames (configuration_of self.now).waiting)) }
    {
        self.state.saved_before()
    }

    /// How many control sources all calls have saved.
    pub fn saved(&self) -> usize
        ensures { result ≡ length (saved_in (frames_of (configuration_of self.now))) }
    {
        self.state.saved()
    }

    /// The number of the register that gets what the newest call returns, if one does, among those of all live calls.
    pub fn back_register(&self) -> Option<u32>
        ensures back { result ≡ back_meant self.now.code (configuration_of self.now).waiting }
        ensures below { IfSome result (λ r. r < first_meant self.now.code (configuration_of self.now)) }
    {
        self.state.back_register()
    }

    /// The number of the first register behind the newest call's.
    #[inline(always)]
    pub fn next_register(&self) -> u32
        ensures next { result ≡ widths self.now.code (frames_of (configuration_of self.now)) }
        ensures few { result ≤ 2 ^ 21 }
    {
        self.state.next_register()
    }

    /// The number of the newest call's first register.
    #[inline(always)]
    pub fn first_register(&self) -> u32
        ensures first { result ≡ first_meant self.now.code (configuration_of self.now) }
        ensures few { result + width self.now.code (configuration_of self.now).frame.func ≤ 2 ^ 21 }
    {
        self.state.first() as u32
    }
}
