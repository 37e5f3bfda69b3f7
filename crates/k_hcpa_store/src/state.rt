//! What a store keeps, and its registers. Its functions tell how the calls share what they hold; the store itself keeps that they do.
ghost use Rattle.std.specs.Prelude.{◌≡◌};
ghost use Rattle.k_hcpa_store.specs.Parts.{IsWithin, set_and_on};
ghost use Rattle.k_hcpa_store.specs.Slots.{CanKeep, held_of};
ghost use Rattle.k_world.specs.Operands.{source_in};

use crate::call::{Call, Caller};
use crate::register::{Register, register_of};
use crate::registers::Registers;
use k_code::Code;
use k_world::{Held, Read, RunState};
use std::marker::Model;

mod accesses;
mod alone;
mod calls;
mod getters;
mod looks;
mod operations;
mod quick;
mod regions;
mod start;

/// What a store keeps.
#[derive(Drop)]
pub struct State<'a> {
    code: &'a Code,
    pc: usize,
    call: Call,
    waiting: Vec<Caller>,
    registers: Registers,
    saved: Vec<Option<u64>>,
    world: RunState<'a>,
    /// What operands read, where there may be more than two.
    reads: Vec<Read>,
}

impl<'a> Model for State<'a> {
    ghost use Rattle.std.specs.Prelude.{reverse};
    ghost use Rattle.k_hcpa_store.specs.Kept.{Kept};

    ghost Value = { Kept };

    ghost view = { λ s. record {
      code = s.code.now;
      pc = s.pc;
      call = s.call;
      waiting = reverse s.waiting.items;
      registers = s.registers;
      saved = s.saved.items;
      world = s.world;
    } };
}

impl<'a> State<'a> {
    /// A register of the newest call holds this from now on, or nothing, and the run goes on at an instruction.
    #[inline(always)]
    fn set_and_on(&mut self, to: Option<u32>, slot: Option<Held>, pc: usize)
        requires within { IsWithin self.old.call.first to self.old.registers }
        requires keeps { CanKeep (source_in slot) }
        ensures { self.new ≡ set_and_on to slot pc self.old }
    {
        self.keep_and_on(to, register_of(slot), pc);
    }

    /// The same of what a register holds, as it keeps it.
    #[inline(always)]
    pub fn keep_and_on(&mut self, to: Option<u32>, register: Register, pc: usize)
        requires { IsWithin self.old.call.first to self.old.registers }
        ensures { self.new ≡ set_and_on to (held_of register) pc self.old }
    {
        if let Some(r) = to {
            self.registers.set(self.call.first, r, register);
        }
        self.pc = pc;
    }
}
