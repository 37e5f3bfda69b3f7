//! One instruction.
ghost use Rattle.std.specs.Prelude.{ℕ, ◌≡◌, ◌+◌, ◌≤◌, Option, Result, Some, slice_get};
ghost use Rattle.k_code.specs.declared.instruction.Instr.{Instr as InstrValue};
ghost use Rattle.k_hcpa_standing.specs.Standing.{IsSetting, Setting};
ghost use Rattle.k_hcpa_steps.specs.Keeping.{ComesTo, GoesTo, IsRunning, IsTurn, ReadsWithin, StandsAt, TellsWriting, keeping};
ghost use Rattle.k_hcpa_store.specs.Kept.{configuration_of};
ghost use Rattle.k_hcpa_store.specs.Leads.{IsNext};

use crate::instructions::{Kind, kind_of, writes};
use crate::parts::Parts;
use crate::turn::Turn;
use k_code::{Do, Instr};
use k_ending::End;
use k_hcpa_times::Timed;
use k_num::NoMemory;
use k_shadow::Steps;
use std::sync::ledger::Ledger;

/// What an instruction has come to, where it ended the run or didn't.
#[inline(always)]
fn turn_of(act: &Do, ended: Option<End>) -> Turn
    ensures { IsTurn act.now ended result }
{
    match ended {
        Some(end) => Turn::Ended(end),
        None => { if writes(act) { Turn::Wrote } else { Turn::Went } }
    }
}

impl<'a, T: Timed> Parts<'a, T> {
    /// Does an instruction by its kind.
    #[inline(always)]
    fn go<L: Ledger>(
        &mut self,
        instr: &'a Instr,
        steps: &mut Steps<L>,
    ) -> Result<Option<End>, NoMemory>
        requires next { IsNext self.old.store instr.now }
        requires running { IsRunning self.old.depth (keeping self.old.store (T.seen self.old.times) self.old.summaries) }
        ensures depth { self.new.depth ≡ self.old.depth }
        ensures goes { (s : Setting) (count taken : ℕ) → IsSetting s → s.depth ≡ self.old.depth → StandsAt s count taken (keeping self.old.store (T.seen self.old.times) self.old.summaries) → GoesTo s count taken (keeping self.old.store (T.seen self.old.times) self.old.summaries) result (keeping self.new.store (T.seen self.new.times) self.new.summaries) }
        ensures reads { ReadsWithin (keeping self.old.store (T.seen self.old.times) self.old.summaries) steps.old steps.new }
    {
        match kind_of(&instr.act) {
            Kind::Operation => self.operate(instr, steps),
            Kind::Silent => self.pass(instr),
            Kind::Enter => {
                self.enter(instr);
                Ok(None)
            }
            Kind::Exit => self.exit(instr),
            Kind::Call => self.call(instr, steps),
            Kind::Return => self.leave(instr, steps),
        }
    }

    /// Does the next instruction. Nothing has changed where no memory is found.
    #[inline(always)]
    pub fn step<L: Ledger>(&mut self, steps: &mut Steps<L>) -> Result<Turn, NoMemory>
        requires running { IsRunning self.old.depth (keeping self.old.store (T.seen self.old.times) self.old.summaries) }
        ensures depth { self.new.depth ≡ self.old.depth }
        ensures comes { (s : Setting) (count taken : ℕ) → IsSetting s → s.depth ≡ self.old.depth → StandsAt s count taken (keeping self.old.store (T.seen self.old.times) self.old.summaries) → ComesTo s count taken (keeping self.old.store (T.seen self.old.times) self.old.summaries) result (keeping self.new.store (T.seen self.new.times) self.new.summaries) }
        ensures tells { (i : InstrValue) → slice_get self.old.store.code.instrs (configuration_of self.old.store).pc ≡ Some i → TellsWriting i.act result }
        ensures reads { ReadsWithin (keeping self.old.store (T.seen self.old.times) self.old.summaries) steps.old steps.new }
    {
        let instr = self.store.instruction();
        match self.go(instr, steps) {
            Ok(ended) => Ok(turn_of(&instr.act, ended)),
            Err(NoMemory) => Err(NoMemory),
        }
    }
}
