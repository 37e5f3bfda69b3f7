//! A tracked instance that is open, and what it is once it is closed.

ghost use Rattle.std.specs.Prelude.{◌≡◌, ◌++◌, OnOk, All, map};
ghost use Rattle.k_graph.specs.Levels.{CanAdd, added, measured};

use crate::times::greatest_time;
use k_num::{NoMemory, Seq};
use k_optab::{Closed, Src};

/// A closed instance with its work and its critical path. Its parent is not known yet.
#[derive(Clone, Copy, Debug)]
pub(crate) struct Measured {
    pub closed: Closed,
    pub work: u64,
    pub path: u64,
}

/// An open instance that is tracked.
#[derive(Debug, Drop)]
pub(crate) struct Level {
    pub region: u32,
    pub depth: u32,
    /// Which of the events is its Enter.
    pub enter: u64,
    /// How many operations were made before that.
    pub start: u64,
    /// The latencies of its operations so far.
    pub work: u64,
    /// The weight of the heaviest path of its operations so far.
    pub path: u64,
    /// The weight of the heaviest path to each of its operations.
    pub times: Seq<u64>,
    /// The instances within it that are closed, in order of entry.
    pub inner: Seq<Measured>,
}

impl Level {
    /// One operation more.
    pub(crate) fn add(&mut self, latency: u64, sources: &[Src]) -> Result<(), NoMemory>
        requires { CanAdd latency sources.now self.old }
        ensures { OnOk result (self.new ≡ added latency sources.now self.old) }
    {
        let time = latency + greatest_time(self.start, self.times.as_slice(), sources);
        self.times.push(time)?;
        self.work += latency;
        self.path = self.path.max(time);
        Ok(())
    }

    /// The instance, once the event of this number is its Exit, behind so many operations.
    pub(crate) fn closed(&self, exit: u64, end: u64) -> Measured
        ensures { result ≡ measured exit end self.now }
    {
        Measured {
            closed: Closed {
                region: self.region,
                depth: self.depth,
                enter: self.enter,
                exit,
                start: self.start,
                end,
            },
            work: self.work,
            path: self.path,
        }
    }
}

/// One operation more at each level.
pub(crate) fn add_to_each(
    levels: &mut [Level],
    latency: u64,
    sources: &[Src],
) -> Result<(), NoMemory>
    requires { All (CanAdd latency sources.now) levels.old }
    ensures { OnOk result (levels.new ≡ map (added latency sources.now) levels.old) }
{
    for level in levels.iter_mut() {
        level.add(latency, sources)?;
    }
    Ok(())
}

/// Adds instances at the end of a list.
pub(crate) fn append(list: &mut Seq<Measured>, items: &[Measured]) -> Result<(), NoMemory>
    ensures { OnOk result (list.new ≡ list.old ++ items.now) }
{
    for item in items {
        list.push(*item)?;
    }
    Ok(())
}
