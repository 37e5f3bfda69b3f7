//! The summaries of a run. There is room for all levels from the start, so that to enter an instance can't fail.
ghost use Rattle.std.specs.Prelude.{◌≡◌, ◌+◌, ◌-◌, ◌^◌, ◌<◌, length, IfOk, OnOk, OnErr};
ghost use Rattle.k_hcpa_meaning.specs.Summing.{nothing_entered, operation_made, region_entered, region_left, regions_left};
ghost use Rattle.k_hcpa_summaries.specs.Outermost.{before_at};

use crate::closing::close_levels;
use crate::level::Level;
use k_dict_entries::Dict;
use k_num::NoMemory;
use std::alloc::Global;
use std::marker::Model;

/// So many levels may be open at once, as in a shadow.
const LEVEL_LIMIT: usize = 32;

/// The summaries of a run so far: the open instances that have a level, how many are open, the work, and the dictionary of the closed ones, where it is
/// within its limits.
#[derive(Drop)]
pub struct Summaries {
    alloc: Global,
    /// Outermost first.
    levels: Vec<Level>,
    opened: u64,
    entered: u64,
    work: u64,
    dict: Option<Dict>,
}

impl Model for Summaries {
    ghost use Rattle.std.specs.Prelude.{◌≤◌, reverse, vec_capacity};
    ghost use Rattle.k_hcpa_meaning.specs.Summing.{Summing};
    ghost use Rattle.k_hcpa_summaries.specs.Whole.{IsWhole, summing_of};

    ghost Value = { Summing };

    ghost view = { λ s. summing_of s.levels.items s.opened s.entered s.work s.dict };

    ghost invariant = { λ s. IsWhole (summing_of s.levels.items s.opened s.entered s.work s.dict) × (32 ≤ vec_capacity s.levels) };
}

impl Summaries {
    ghost use Rattle.std.specs.Prelude.{◌≤◌, reverse};
    ghost use Rattle.k_hcpa_summaries.specs.Closing.{left_open};

    /// No instance was entered. Room is made for the 32 levels that may be open at once.
    pub fn new(alloc: Global) -> Result<Summaries, NoMemory>
        ensures { IfOk result (λ s. s ≡ nothing_entered) }
    {
        let levels = Vec::with_capacity(alloc, LEVEL_LIMIT)?;
        Ok(Summaries {
            alloc,
            levels,
            opened: 0,
            entered: 0,
            work: 0,
            dict: Some(Dict::new(alloc)),
        })
    }

    /// How many levels are open.
    pub fn levels(&self) -> usize
        ensures { result ≡ length self.now.levels }
    {
        self.levels.len()
    }

    /// How many instances are open.
    pub fn opened(&self) -> u64
        ensures opened { result ≡ self.now.opened }
        ensures few { result ≤ self.now.entered }
    {
        self.opened
    }

    /// The work of all operations so far.
    pub fn work(&self) -> u64
        ensures { result ≡ self.now.work }
    {
        self.work
    }

    /// The work since the instance at a level began, outermost first.
    pub fn work_since(&self, level: usize) -> u64
        requires { level < length self.now.levels }
        ensures { result ≡ self.now.work - before_at self.now.levels level }
    {
        self.work.saturating_sub(self.levels[level].before())
    }

    /// Enters an instance of a region, which has a level where fewer than `depth` are open.
    #[tactic(auto, unfolding(k_hcpa_meaning::specs::Summing::region_entered))]
    pub fn enter(&mut self, depth: u32, region: u32)
        requires few { self.old.entered < 2 ^ 62 }
        requires shallow { self.old.opened < depth → length self.old.levels < 32 }
        ensures { self.new ≡ region_entered depth region self.old }
    {
        if self.opened < depth as u64 {
            self.levels
                .push_reserved(Level::new(self.alloc, region, self.work));
        }
        self.opened += 1;
        self.entered += 1;
    }

    /// Counts an operation.
    #[inline]
    pub fn count(&mut self, latency: u64)
        requires { self.old.work + latency < 2 ^ 64 }
        ensures { self.new ≡ operation_made latency self.old }
    {
        self.work += latency;
    }

    /// Closes as many levels as there are paths, outermost first, where so much work was done in all and so many instances stay open.
    fn close(&mut self, work: u64, opened: u64, paths: &[u64]) -> Result<(), NoMemory>
        requires paths { length paths.now ≤ length self.old.levels }
        requires opened { opened ≤ self.old.opened }
        ensures ok { OnOk result (self.new ≡ left_open work opened (reverse paths.now) self.old) }
        ensures err { OnErr result (self.new ≡ self.old) }
    {
        close_levels(self.alloc, &mut self.levels, &mut self.dict, work, paths)?;
        self.opened = opened;
        self.work = work;
        Ok(())
    }

    /// Leaves the innermost instance, which has this path where it has a level.
    #[tactic(auto, unfolding(k_hcpa_meaning::specs::Summing::region_left))]
    pub fn leave(&mut self, depth: u32, path: u64) -> Result<(), NoMemory>
        ensures ok { OnOk result (self.new ≡ region_left depth path self.old) }
        ensures err { OnErr result (self.new ≡ self.old) }
    {
        let opened = self.opened.saturating_sub(1);
        if self.opened > depth as u64 || self.levels.len() == 0 {
            self.opened = opened;
            return Ok(());
        }
        self.close(self.work, opened, &[path])
    }

    /// Leaves the innermost instances, so many, behind an operation of this latency. The paths are those of all levels, outermost first.
    pub fn leave_all(
        &mut self,
        depth: u32,
        latency: u64,
        paths: &[u64],
        count: u64,
    ) -> Result<(), NoMemory>
        requires work { self.old.work + latency < 2 ^ 64 }
        requires paths { length paths.now ≡ length self.old.levels }
        ensures ok { OnOk result (self.new ≡ regions_left depth paths.now count (operation_made latency self.old)) }
        ensures err { OnErr result (self.new ≡ self.old) }
    {
        let untracked = self.opened.saturating_sub(depth as u64).min(count);
        let closed = (count - untracked).min(paths.len() as u64) as usize;
        let inner = &paths[paths.len() - closed..];
        self.close(
            self.work + latency,
            self.opened.saturating_sub(count),
            inner,
        )
    }

    /// The dictionary, if it is within its limits.
    pub fn finish(self) -> Option<Dict>
        ensures { result ≡ self.dict }
    {
        let Summaries { levels, dict, .. } = self;
        drop(levels);
        dict
    }
}
