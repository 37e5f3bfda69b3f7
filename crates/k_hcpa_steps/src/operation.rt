//! Operations by which a call goes on.
ghost use Rattle.std.specs.Prelude.{ℕ, ◌≡◌, ◌+◌, ◌^◌, ◌<◌, IfSome, OnOk};
ghost use Rattle.k_hcpa_instructions.specs.Kinds.{HaveRoom};
ghost use Rattle.k_hcpa_meaning.specs.Locations.{element_location, register_location};
ghost use Rattle.k_hcpa_standing.specs.Standing.{IsSetting, Setting};
ghost use Rattle.k_hcpa_steps.specs.declared.instructions.Kind.TheVariants as kind;
ghost use Rattle.k_hcpa_steps.specs.Keeping.{GoesTo, IsRunning, ReadsWithin, StandsAt, keeping};
ghost use Rattle.k_hcpa_steps.specs.Kinds.{kind_of};
ghost use Rattle.k_hcpa_store.specs.Leads.{IsNext};
ghost use Rattle.k_hcpa_times.specs.Seen.{ForLatency};

use crate::instructions::register_of;
use crate::parts::Parts;
use k_code::Instr;
use k_ending::End;
use k_hcpa_instructions::operation_times;
use k_hcpa_times::Timed;
use k_num::NoMemory;
use k_shadow::Steps;
use k_world::Stop;
use std::sync::ledger::Ledger;

/// Makes room for an operation of this latency and for what it gives: for a register of the call, whose registers are numbered from `first` on, and for
/// an element.
#[inline(always)]
pub(crate) fn reserve_result<T: Timed>(
    times: &mut T,
    first: u32,
    to: Option<u32>,
    element: Option<u32>,
    latency: u64,
) -> Result<(), NoMemory>
    requires to { IfSome to (λ r. first + r < (T.seen times.old).registers) }
    requires few { IfSome to (λ r. first + r < 2 ^ 32) }
    requires element { IfSome element (λ e. e < (T.seen times.old).elements) }
    ensures same { T.seen times.new ≡ T.seen times.old }
    ensures register { OnOk result (HaveRoom (T.room times.new) (register_location first to)) }
    ensures element { OnOk result (HaveRoom (T.room times.new) (element_location element)) }
    ensures latency { OnOk result (T.room times.new (ForLatency latency)) }
{
    times.admit(latency);
    if let Some(to) = to {
        times.reserve_registers(first + to, 1)?;
    }
    if let Some(element) = element {
        times.reserve_element(element)?;
    }
    Ok(())
}

impl<'a, T: Timed> Parts<'a, T> {
    /// Makes the operation of an instruction by which the call goes on. The run may end in its place, as is told.
    #[inline(always)]
    pub(crate) fn operate<L: Ledger>(
        &mut self,
        instr: &'a Instr,
        steps: &mut Steps<L>,
    ) -> Result<Option<End>, NoMemory>
        requires next { IsNext self.old.store instr.now }
        requires operation { kind_of instr.now.act ≡ kind.Operation }
        requires running { IsRunning self.old.depth (keeping self.old.store (T.seen self.old.times) self.old.summaries) }
        ensures depth { self.new.depth ≡ self.old.depth }
        ensures goes { (s : Setting) (count taken : ℕ) → IsSetting s → s.depth ≡ self.old.depth → StandsAt s count taken (keeping self.old.store (T.seen self.old.times) self.old.summaries) → GoesTo s count taken (keeping self.old.store (T.seen self.old.times) self.old.summaries) result (keeping self.new.store (T.seen self.new.times) self.new.summaries) }
        ensures reads { ReadsWithin (keeping self.old.store (T.seen self.old.times) self.old.summaries) steps.old steps.new }
    {
        let first = self.store.first_register();
        let to = register_of(&instr.act);
        let element = self.store.element_to_store(instr);
        reserve_result(&mut self.times, first, to, element, instr.latency)?;
        match self.store.operate(instr) {
            Err(Stop::Memory) => Err(NoMemory),
            Err(Stop::Ended(end)) => Ok(Some(end)),
            Ok(done) => {
                operation_times(&mut self.times, first, instr, done.element, to, steps);
                self.summaries.count(instr.latency);
                Ok(None)
            }
        }
    }
}
