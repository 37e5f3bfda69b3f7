//! What a store tells of its configuration.
ghost use Rattle.std.specs.Prelude.{◌≡◌, ℕ, ◌+◌, ◌^◌, ◌<◌, ◌≤◌, [], length, slice_get, option_map, IfSome, OnOk, Some};
ghost use Rattle.k_num.specs.Top.{top};
ghost use Rattle.k_hcpa_meaning.specs.Locations.{first_register as first_meant, frames_of, widths};
ghost use Rattle.k_code.specs.Steps.{reads_of};
ghost use Rattle.k_hcpa_store.specs.Kept.{configuration_of};
ghost use Rattle.k_hcpa_store.specs.Leads.{back_register as back_meant, source_read};
ghost use Rattle.k_world.specs.Operands.{source_in as source_meant};
ghost use Rattle.k_hcpa_store.specs.Parts.{reads_in};
ghost use Rattle.k_hcpa_store.specs.Sound.{IsSound};

use super::State;
use crate::call::Caller;
use crate::operands::{Operands, operands_in};
use crate::registers::{read, read_all};
use k_code::{Arg, Code, Instr};
use k_num::NoMemory;
use k_world::Read;

impl<'a> State<'a> {
    /// The code that is run.
    #[inline(always)]
    pub fn code(&self) -> &'a Code
        ensures { result.now ≡ self.now.code }
    {
        self.code
    }

    /// The instruction that is next.
    #[inline(always)]
    pub fn instruction(&self) -> &'a Instr
        requires { self.now.pc < length self.now.code.instrs }
        ensures { slice_get self.now.code.instrs self.now.pc ≡ Some result.now }
    {
        let code = self.code;
        &code.instrs.as_slice()[self.pc]
    }

    /// How many operations are left.
    #[inline(always)]
    pub fn left(&self) -> u64
        ensures { result ≡ self.now.world.left }
    {
        self.world.left()
    }

    /// The number of the next instruction.
    #[inline(always)]
    pub fn pc(&self) -> usize
        ensures { result ≡ self.now.pc }
    {
        self.pc
    }

    /// The place of the newest call's first register.
    #[inline(always)]
    pub fn first(&self) -> usize
        ensures { result ≡ self.now.call.first }
    {
        self.call.first
    }

    /// The number of the first register behind the newest call's.
    #[inline(always)]
    pub fn next_register(&self) -> u32
        requires { IsSound self.now }
        ensures next { result ≡ widths self.now.code (frames_of (configuration_of self.now)) }
        ensures few { result ≤ 2 ^ 21 }
    {
        self.registers.count() as u32
    }

    /// The number of the register that gets what the newest call returns.
    pub fn back_register(&self) -> Option<u32>
        requires { IsSound self.now }
        ensures back { result ≡ back_meant self.now.code (configuration_of self.now).waiting }
        ensures below { IfSome result (λ r. r < first_meant self.now.code (configuration_of self.now)) }
    {
        match self.newest_caller() {
            Some(caller) => back_in(caller),
            None => None,
        }
    }

    /// What the operands of an instruction read, in a list that is kept for them.
    #[tactic(auto, unfolding(crate::specs::Kept::configuration_of))]
    pub fn read_operands(&self, reads: &mut Vec<Read>, instr: &Instr) -> Result<(), NoMemory>
        requires { self.now.call.first ≤ length self.now.registers }
        ensures { OnOk result (reads.new.items ≡ reads_of (configuration_of self.now) instr.now.act) }
    {
        match operands_in(&instr.act) {
            Operands::Nothing => self.read_list(reads, &[]),
            Operands::One(a) => self.read_list(reads, &[*a]),
            Operands::Two(a, b) => self.read_list(reads, &[*a, *b]),
            Operands::All(args) => self.read_list(reads, args),
        }
    }

    /// What operands read, in a list that is kept for them.
    fn read_list(&self, reads: &mut Vec<Read>, args: &[Arg]) -> Result<(), NoMemory>
        requires { self.now.call.first ≤ length self.now.registers }
        ensures { OnOk result (reads.new.items ≡ reads_in self.now args.now) }
    {
        read_all(reads, &self.registers, self.call.first, args)
    }

    /// The operation that gave what an operand reads, if one did.
    #[tactic(auto, unfolding(crate::specs::Kept::configuration_of))]
    #[inline(always)]
    pub fn source(&self, arg: &Arg) -> Option<u64>
        requires { self.now.call.first ≤ length self.now.registers }
        ensures { result ≡ source_read (configuration_of self.now) arg.now }
    {
        source_in(&read(&self.registers, self.call.first, arg))
    }

    /// The current control source.
    #[inline(always)]
    pub fn control(&self) -> Option<u64>
        ensures { result ≡ self.now.world.control }
    {
        self.world.control()
    }

    /// The call that waits for the newest one.
    fn newest_caller(&self) -> Option<Caller>
        ensures { result ≡ top self.now.waiting }
    {
        match self.waiting.last() {
            Some(caller) => Some(*caller),
            None => None,
        }
    }

    /// How many control sources the older calls have saved.
    pub fn saved_before(&self) -> usize
        ensures { result ≡ self.now.call.saved }
    {
        self.call.saved
    }

    /// How many control sources all calls have saved.
    pub fn saved(&self) -> usize
        ensures { result ≡ length self.now.saved }
    {
        self.saved.len()
    }

    /// How many operations were made.
    #[inline(always)]
    pub fn made(&self) -> u64
        ensures { result ≡ self.now.world.made }
    {
        self.world.made()
    }

    /// The output that was not yet taken.
    #[inline(always)]
    pub fn pending(&self) -> &[u8]
        ensures { result.now ≡ self.now.world.output }
    {
        self.world.written()
    }

    /// The output is taken.
    pub fn drop_pending(&mut self)
        ensures { self.new ≡ record self.old { world = record self.old.world { output = [] } } }
    {
        self.world.drop_written();
    }
}

/// The operation that gave what was read.
fn source_in(read: &Read) -> Option<u64>
    ensures { result ≡ source_meant read.now.slot }
{
    match read.slot {
        Some(held) => held.source,
        None => None,
    }
}

/// The number of the register of a call that waits to which goes what is returned.
fn back_in(caller: Caller) -> Option<u32>
    requires { (r : ℕ) → caller.to ≡ Some r → caller.call.first + r < 2 ^ 32 }
    ensures { result ≡ option_map (λ r. caller.call.first + r) caller.to }
{
    match caller.to {
        Some(to) => Some(caller.call.first as u32 + to),
        None => None,
    }
}
