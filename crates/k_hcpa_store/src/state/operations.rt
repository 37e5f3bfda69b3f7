//! Instructions that make an operation and go on in their call.
ghost use Rattle.std.specs.Prelude.{◌≡◌, ℕ, ◌+◌, ◌≤◌, ◌<◌, ◌^◌, [], ◌∷◌, Some, length, IfOk};
ghost use Rattle.k_world.specs.Values.{is_true as is_true_meant};
ghost use Rattle.k_optab.specs.declared.class.Class.{Class};
ghost use Rattle.k_world.specs.declared.act.Act.{Act};
ghost use Rattle.k_world.specs.Acts.{touched};
ghost use Rattle.k_world.specs.Answers.{Makes, act_of};
ghost use Rattle.k_world.specs.Operands.{values_of};
ghost use Rattle.k_code.specs.Named.{register_set};
ghost use Rattle.k_hcpa_store.specs.Leads.{IsNext, MakesBy, Operates, goes_by, stored_element};
ghost use Rattle.k_hcpa_store.specs.Kept.{configuration_of};
ghost use Rattle.k_world.specs.declared.act.Act.TheVariants.{Store};
ghost use Rattle.k_hcpa_store.specs.Parts.{IsWithin, follows as follows_meant, given, listed, reads_in};
ghost use Rattle.k_hcpa_store.specs.Slots.{CanKeep};
ghost use Rattle.k_hcpa_store.specs.Sound.{IsSound};

use super::State;
use crate::at_once::AtOnce;
use crate::made::make_in;
use crate::operands::{Operands, act_in, operands_in, register_in};
use crate::registers::{read, read_all};
use k_code::{Arg, Do, Instr};
use k_num::Place;
use k_world::{ActRef, Done, Held, Stop, Value};

impl<'a> State<'a> {
    /// Makes the operation of an instruction, and goes on behind it.
    #[inline(always)]
    pub fn operate(&mut self, instr: &Instr) -> Result<Done, Stop>
        requires sound { IsSound self.old }
        requires next { IsNext self.old instr.now }
        ensures operates { (o : Class × Act) → goes_by instr.now.act ≡ Some o → Operates self.old instr.now o result self.new }
        ensures made { (o : Class × Act) → goes_by instr.now.act ≡ Some o → MakesBy self.old instr.now o result self.new }
        ensures sound { IsSound self.new }
    {
        match self.at_once(&instr.act) {
            AtOnce::Gives(value, slot, to) => Ok(self.give_at_once(value, slot, to)),
            AtOnce::Tests(holds, pc, to) => Ok(self.lead_at_once(holds, pc, to)),
            AtOnce::Other => self.operate_by_parts(instr),
        }
    }

    /// The same, by its act, its operands and its register.
    #[inline(always)]
    fn operate_by_parts(&mut self, instr: &Instr) -> Result<Done, Stop>
        requires sound { IsSound self.old }
        requires next { IsNext self.old instr.now }
        ensures operates { (o : Class × Act) → goes_by instr.now.act ≡ Some o → Operates self.old instr.now o result self.new }
        ensures made { (o : Class × Act) → goes_by instr.now.act ≡ Some o → MakesBy self.old instr.now o result self.new }
        ensures sound { IsSound self.new }
    {
        let Some(act) = act_in(&instr.act) else {
            return Err(Stop::Memory);
        };
        match self.perform(instr.place, act, operands_in(&instr.act)) {
            Ok(done) => {
                self.give(&instr.act, done.held);
                Ok(done)
            }
            Err(stop) => Err(stop),
        }
    }

    /// The element that a store would write.
    #[tactic(auto, unfolding(crate::specs::Leads::stored_element))]
    pub fn element_to_store(&self, instr: &Instr) -> Option<u32>
        requires { self.now.call.first ≤ length self.now.registers }
        ensures { result ≡ stored_element (configuration_of self.now) instr.now.act }
    {
        match &instr.act {
            Do::Store { at, a, .. } => self.element_at(at, a),
            _ => None,
        }
    }

    /// The element that a store of these operands would write.
    fn element_at(&self, at: &Arg, a: &Arg) -> Option<u32>
        requires { self.now.call.first ≤ length self.now.registers }
        ensures { result ≡ touched Store (values_of (reads_in self.now (at.now ∷ a.now ∷ []))) self.now.world.memory }
    {
        self.world.element_to_store(
            read(&self.registers, self.call.first, at),
            read(&self.registers, self.call.first, a),
        )
    }

    /// Makes an operation, of which the world alone tells.
    #[inline(always)]
    pub fn perform(
        &mut self,
        place: Place,
        act: ActRef<'_>,
        operands: Operands<'_>,
    ) -> Result<Done, Stop>
        requires { self.old.call.first ≤ length self.old.registers }
        ensures kept { self.new ≡ record self.old { world = self.new.world } }
        ensures made { (class : Class) (latency : ℕ) → Makes class latency place (act_of act.entry) (reads_in self.old (listed operands.entry)) self.old.world result self.new.world }
        ensures element { IfOk result (λ done. touched (act_of act.entry) (values_of (reads_in self.old (listed operands.entry))) self.old.world.memory ≡ done.element) }
        ensures keeps { IfOk result (λ done. CanKeep done.held.source) }
    {
        match operands {
            Operands::Nothing => make_in(&mut self.world, place, act, &[]),
            Operands::One(a) => {
                let reads = [read(&self.registers, self.call.first, a)];
                make_in(&mut self.world, place, act, &reads)
            }
            Operands::Two(a, b) => {
                let reads = [
                    read(&self.registers, self.call.first, a),
                    read(&self.registers, self.call.first, b),
                ];
                make_in(&mut self.world, place, act, &reads)
            }
            Operands::All(args) => {
                read_all(&mut self.reads, &self.registers, self.call.first, args)?;
                make_in(&mut self.world, place, act, &self.reads)
            }
        }
    }

    /// The operation of an instruction gave this: its register holds it, and the run goes on.
    #[inline(always)]
    fn give(&mut self, what: &Do, held: Held)
        requires within { IsWithin self.old.call.first (register_set what.now) self.old.registers }
        requires next { self.old.pc + 1 < 2 ^ 64 }
        requires keeps { CanKeep held.source }
        ensures { self.new ≡ given what.now held self.old }
    {
        let pc = follow(what, &held, self.pc);
        self.set_and_on(register_in(what), Some(held), pc);
    }
}

/// The instruction behind one whose operation gave this.
#[tactic(auto, unfolding(crate::specs::Parts::follows))]
#[inline(always)]
fn follow(what: &Do, held: &Held, pc: usize) -> usize
    requires { pc + 1 < 2 ^ 64 }
    ensures { result ≡ follows_meant what.now held.now pc }
{
    match what {
        Do::Test { then, other, .. } => {
            if is_true(&held.value) {
                *then as usize
            } else {
                *other as usize
            }
        }
        _ => pc + 1,
    }
}

/// Whether a value is a number other than 0, or a pointer.
#[inline(always)]
fn is_true(value: &Value) -> bool
    ensures { result ≡ is_true_meant value.now }
{
    match value {
        Value::Number(number) => *number != 0,
        Value::Pointer(_) => true,
    }
}
