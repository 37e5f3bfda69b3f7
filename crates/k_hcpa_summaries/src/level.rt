//! An open instance that has a level.
ghost use Rattle.std.specs.Prelude.{◌≡◌, ℕ, ◌+◌, ◌-◌, ◌^◌, ◌<◌, [], ◌++◌, OnOk, OnErr, IfOk};
ghost use Rattle.k_dict_entries.specs.Tallies.{count_of, counted};
ghost use Rattle.k_hcpa_meaning.specs.Summing.{summary_of};

use k_dict_entries::{Entry, Run, Tally};
use k_num::{NoMemory, Seq};
use std::alloc::Global;
use std::marker::Model;

/// An open instance: its region, the work before it, and how often each entry occurs among its closed children.
#[derive(Drop)]
pub struct Level {
    region: u32,
    before: u64,
    children: Tally,
}

impl Model for Level {
    ghost use Rattle.k_hcpa_meaning.specs.Summing.{Opened as OpenedValue};

    ghost Value = { OpenedValue };

    ghost view = { λ l. record { region = l.region; before = l.before; runs = l.children } };
}

/// Adds all of these runs.
fn extend(out: &mut Seq<Run>, runs: &[Run]) -> Result<(), NoMemory>
    ensures { OnOk result (out.new ≡ out.old ++ runs.now) }
{
    for run in runs {
        out.push(*run)?;
    }
    Ok(())
}

/// The runs with one child more.
fn with_child(alloc: Global, runs: &[Run], child: u32) -> Result<Seq<Run>, NoMemory>
    requires { count_of child runs.now + 1 < 2 ^ 64 }
    ensures { IfOk result (λ all. all ≡ counted child 1 runs.now) }
{
    let one = Run {
        entry: child,
        count: 1,
    };
    let mut all = Seq::new(alloc);
    let mut rest = runs;
    while let Some((run, more)) = rest.split_first() {
        if child < run.entry {
            all.push(one)?;
            extend(&mut all, rest)?;
            return Ok(all);
        }
        if run.entry == child {
            all.push(Run {
                entry: child,
                count: 1 + run.count,
            })?;
            extend(&mut all, more)?;
            return Ok(all);
        }
        all.push(*run)?;
        rest = more;
    }
    all.push(one)?;
    Ok(all)
}

impl Level {
    ghost use Rattle.k_hcpa_summaries.specs.Closing.{with_last};

    /// No child is closed.
    pub fn new(alloc: Global, region: u32, before: u64) -> Level
        ensures { result ≡ record { region = region; before = before; runs = [] } }
    {
        Level {
            region,
            before,
            children: Tally::new(alloc),
        }
    }

    /// The work of all operations before the instance.
    pub fn before(&self) -> u64
        ensures { result ≡ self.now.before }
    {
        self.before
    }

    /// Counts a child. A refusal changes nothing.
    pub fn count(&mut self, child: u32) -> Result<(), NoMemory>
        requires { count_of child self.old.runs + 1 < 2 ^ 64 }
        ensures ok { OnOk result (self.new ≡ record self.old { runs = counted child 1 self.old.runs }) }
        ensures err { OnErr result (self.new ≡ self.old) }
    {
        self.children.add(child, 1)
    }

    /// The runs of the children, with one more where there is one.
    fn runs(&self, alloc: Global, last: Option<u32>) -> Result<Seq<Run>, NoMemory>
        requires { (n : ℕ) → count_of n self.now.runs + 1 < 2 ^ 64 }
        ensures { IfOk result (λ runs. runs ≡ (with_last last self.now).runs) }
    {
        let runs = self.children.runs(alloc)?;
        match last {
            None => Ok(runs),
            Some(child) => {
                let all = with_child(alloc, runs.as_slice(), child);
                drop(runs);
                all
            }
        }
    }

    /// The entry of the instance where it is left with this path and so much work was done in all, and the child that was left last is not
    /// counted yet.
    pub fn entry(
        &self,
        alloc: Global,
        last: Option<u32>,
        work: u64,
        path: u64,
    ) -> Result<Entry, NoMemory>
        requires { (n : ℕ) → count_of n self.now.runs + 1 < 2 ^ 64 }
        ensures { IfOk result (λ entry. entry ≡ summary_of (with_last last self.now) work path) }
    {
        let runs = self.runs(alloc, last)?;
        Ok(Entry {
            region: self.region,
            work: work.saturating_sub(self.before),
            path,
            runs,
        })
    }
}
