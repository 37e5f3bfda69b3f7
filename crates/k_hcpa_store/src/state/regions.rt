//! Regions of the newest call, beside its function's.
ghost use Rattle.std.specs.Prelude.{◌≡◌, ℕ, ◌+◌, ◌<◌, ◌^◌, [], ◌∷◌};
ghost use Rattle.k_optab.specs.declared.event.Event.TheVariants.{Enter, Exit};
ghost use Rattle.k_code.specs.declared.instruction.Do.TheVariants as act;
ghost use Rattle.k_hcpa_store.specs.Kept.{configuration_of};
ghost use Rattle.k_hcpa_store.specs.Leads.{GoesOn, IsNext};
ghost use Rattle.k_hcpa_store.specs.Sound.{IsSound};

use super::State;
use k_code::Instr;

impl<'a> State<'a> {
    /// Enters a region.
    #[tactic(auto, unfolding(crate::specs::Kept::configuration_of))]
    pub fn enter(&mut self, instr: &Instr)
        requires sound { IsSound self.old }
        requires next { IsNext self.old instr.now }
        requires few { (configuration_of self.old).frame.regions + 1 < 2 ^ 62 }
        ensures { ((region : ℕ) → instr.now.act ≡ act.Enter region → GoesOn self.old (Enter region ∷ []) self.new) × IsSound self.new }
    {
        let next = self.next();
        let regions = self.call.regions + 1;
        self.set_regions(regions, next);
    }

    /// Leaves the newest region that was entered.
    pub fn exit(&mut self, instr: &Instr)
        requires sound { IsSound self.old }
        requires next { IsNext self.old instr.now }
        requires exit { instr.now.act ≡ act.Exit }
        ensures { GoesOn self.old (Exit ∷ []) self.new × IsSound self.new }
    {
        let next = self.next();
        let regions = self.call.regions.saturating_sub(1);
        self.set_regions(regions, next);
    }

    /// How many regions a return leaves.
    #[inline(always)]
    pub fn regions(&self) -> u64
        requires { IsSound self.now }
        ensures { result ≡ self.now.call.regions + 1 }
    {
        self.call.regions + 1
    }

    /// So many regions of the newest call are open from now on, and the run goes on at an instruction.
    #[inline(always)]
    pub fn set_regions(&mut self, regions: u64, pc: usize)
        ensures { self.new ≡ record self.old { pc = pc; call = record self.old.call { regions = regions } } }
    {
        self.call.regions = regions;
        self.pc = pc;
    }
}
