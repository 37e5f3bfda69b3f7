//! Instances that are entered and left.
ghost use Rattle.std.specs.Prelude.{ℕ, ◌≡◌, ◌^◌, ◌<◌, length, Ok, Option, None};
ghost use Rattle.k_hcpa_meaning.specs.Summing.{last_path, region_entered};
ghost use Rattle.k_hcpa_standing.specs.Standing.{IsSetting, Setting};
ghost use Rattle.k_hcpa_steps.specs.declared.instructions.Kind.TheVariants as kind;
ghost use Rattle.k_hcpa_steps.specs.Keeping.{GoesTo, IsRunning, StandsAt, keeping};
ghost use Rattle.k_hcpa_steps.specs.Kinds.{kind_of};
ghost use Rattle.k_hcpa_store.specs.Leads.{IsNext};
ghost use Rattle.k_hcpa_times.specs.Seen.{instance_entered, levels};

use crate::instructions::region_of;
use crate::parts::Parts;
use k_code::Instr;
use k_ending::End;
use k_hcpa_times::Timed;
use k_num::NoMemory;

/// The last of some paths, which is the innermost instance's.
fn last_of(paths: &[u64]) -> u64
    ensures { result ≡ last_path paths.now }
{
    match paths.split_last() {
        Some((path, _)) => *path,
        None => 0,
    }
}

impl<'a, T: Timed> Parts<'a, T> {
    /// An instance of a region is entered, in the times and in the summaries.
    pub(crate) fn enter_instance(&mut self, region: u32)
        requires shallow { self.old.summaries.opened < self.old.depth → levels (T.seen self.old.times) < 32 }
        requires entries { (T.seen self.old.times).entries < 2 ^ 62 }
        requires entered { self.old.summaries.entered < 2 ^ 62 }
        requires same { levels (T.seen self.old.times) ≡ length self.old.summaries.levels }
        ensures depth { self.new.depth ≡ self.old.depth }
        ensures store { self.new.store ≡ self.old.store }
        ensures times { T.seen self.new.times ≡ instance_entered self.old.depth self.old.summaries.opened (T.seen self.old.times) }
        ensures summaries { self.new.summaries ≡ region_entered self.old.depth region self.old.summaries }
    {
        let opened = self.summaries.opened();
        self.times.enter_below(self.depth, opened);
        self.summaries.enter(self.depth, region);
    }

    /// Enters an instance of the region that the instruction names.
    pub(crate) fn enter(&mut self, instr: &'a Instr)
        requires next { IsNext self.old.store instr.now }
        requires enters { kind_of instr.now.act ≡ kind.Enter }
        requires running { IsRunning self.old.depth (keeping self.old.store (T.seen self.old.times) self.old.summaries) }
        ensures depth { self.new.depth ≡ self.old.depth }
        ensures goes { (s : Setting) (count taken : ℕ) → IsSetting s → s.depth ≡ self.old.depth → StandsAt s count taken (keeping self.old.store (T.seen self.old.times) self.old.summaries) → GoesTo s count taken (keeping self.old.store (T.seen self.old.times) self.old.summaries) (Ok None) (keeping self.new.store (T.seen self.new.times) self.new.summaries) }
    {
        let _ = self.summaries.opened();
        self.store.enter(instr);
        self.enter_instance(region_of(&instr.act));
    }

    /// Leaves the innermost instance.
    pub(crate) fn exit(&mut self, instr: &'a Instr) -> Result<Option<End>, NoMemory>
        requires next { IsNext self.old.store instr.now }
        requires exits { kind_of instr.now.act ≡ kind.Exit }
        requires running { IsRunning self.old.depth (keeping self.old.store (T.seen self.old.times) self.old.summaries) }
        ensures depth { self.new.depth ≡ self.old.depth }
        ensures goes { (s : Setting) (count taken : ℕ) → IsSetting s → s.depth ≡ self.old.depth → StandsAt s count taken (keeping self.old.store (T.seen self.old.times) self.old.summaries) → GoesTo s count taken (keeping self.old.store (T.seen self.old.times) self.old.summaries) result (keeping self.new.store (T.seen self.new.times) self.new.summaries) }
    {
        let opened = self.summaries.opened();
        let path = last_of(self.times.paths());
        self.summaries.leave(self.depth, path)?;
        self.store.exit(instr);
        self.times.leave_below(self.depth, opened);
        Ok(None)
    }
}
