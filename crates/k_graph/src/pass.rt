//! One pass over the events, which measures each instance.
ghost use Rattle.std.specs.Prelude.{◌≡◌, ◌+◌, ◌^◌, ◌<◌, ◌++◌, ◌∷◌, OnOk, IfOk};
ghost use Rattle.k_graph.specs.Passes.{
  CanTake,
  CanTakeOp,
  closed,
  entered,
  exited,
  listed,
  operated,
  start_state,
  state,
  taken,
};

use crate::level::{Level, Measured, add_to_each, append};
use k_num::{NoMemory, Seq};
use k_optab::{Event, Src};
use std::alloc::Global;

/// Where the pass stands: behind the first `passed` events, with `made` operations, where so many instances are open. Of
/// these the outermost, whose depth is below `limit`, are tracked.
#[derive(Debug, Drop)]
pub(crate) struct Pass {
    limit: u64,
    passed: u64,
    made: u64,
    open_count: u64,
    /// The closed instances that no open one encloses, in order of entry.
    done: Seq<Measured>,
    /// The tracked open instances, the outermost first.
    levels: Vec<Level>,
}

/// Adds a closed instance, and those within it, at the end of a list.
fn take_in(list: &mut Seq<Measured>, closed: Measured, inner: &[Measured]) -> Result<(), NoMemory>
    ensures { OnOk result (list.new ≡ list.old ++ closed ∷ inner.now) }
{
    list.push(closed)?;
    append(list, inner)
}

impl Pass {
    /// Before the first event.
    pub(crate) fn new(alloc: Global, depth: u32) -> Pass
        ensures { state result ≡ start_state depth }
    {
        Pass {
            limit: depth as u64,
            passed: 0,
            made: 0,
            open_count: 0,
            done: Seq::new(alloc),
            levels: Vec::new(alloc),
        }
    }

    fn operate(&mut self, latency: u64, sources: &[Src]) -> Result<(), NoMemory>
        requires { CanTakeOp latency sources.now (state self.old) }
        ensures { OnOk result (state self.new ≡ operated latency sources.now (state self.old)) }
    {
        add_to_each(self.levels.as_mut_slice(), latency, sources)?;
        self.passed += 1;
        self.made += 1;
        Ok(())
    }

    fn enter(&mut self, alloc: Global, region: u32) -> Result<(), NoMemory>
        requires passed { self.old.passed + 1 < 2 ^ 64 }
        requires room { self.old.open_count + 1 < 2 ^ 64 }
        requires limit { self.old.limit < 2 ^ 32 }
        ensures { OnOk result (state self.new ≡ entered region (state self.old)) }
    {
        if self.open_count < self.limit {
            self.levels.push(Level {
                region,
                depth: self.open_count as u32,
                enter: self.passed,
                start: self.made,
                work: 0,
                path: 0,
                times: Seq::new(alloc),
                inner: Seq::new(alloc),
            })?;
        }
        self.passed += 1;
        self.open_count += 1;
        Ok(())
    }

    fn exit(&mut self) -> Result<(), NoMemory>
        requires { self.old.passed + 1 < 2 ^ 64 }
        ensures { OnOk result (state self.new ≡ exited (state self.old)) }
    {
        if self.open_count > 0 {
            if self.open_count <= self.limit {
                self.close()?;
            }
            self.open_count -= 1;
        }
        self.passed += 1;
        Ok(())
    }

    /// Closes the innermost level: it goes into the one around it, or among those that none encloses.
    fn close(&mut self) -> Result<(), NoMemory>
        ensures { OnOk result (state self.new ≡ closed (state self.old)) }
    {
        let Some(top) = self.levels.pop() else {
            return Ok(());
        };
        let closed = top.closed(self.passed, self.made);
        match self.levels.last_mut() {
            Some(below) => take_in(&mut below.inner, closed, top.inner.as_slice()),
            None => take_in(&mut self.done, closed, top.inner.as_slice()),
        }
    }

    /// One event more.
    pub(crate) fn take(&mut self, alloc: Global, event: &Event) -> Result<(), NoMemory>
        requires { CanTake event.now (state self.old) }
        ensures { OnOk result (state self.new ≡ taken event.now (state self.old)) }
    {
        match event {
            Event::Op {
                latency,
                sources,
                ..
            } => self.operate(*latency, sources.as_slice()),
            Event::Enter(region) => self.enter(alloc, *region),
            Event::Exit => self.exit(),
        }
    }

    /// The closed instances in order of entry: those that are still open are left out.
    pub(crate) fn finish(self) -> Result<Seq<Measured>, NoMemory>
        ensures { IfOk result (λ list. list ≡ listed self.done self.levels.items) }
    {
        let Pass {
            mut done,
            levels,
            ..
        } = self;
        for level in &levels {
            append(&mut done, level.inner.as_slice())?;
        }
        Ok(done)
    }
}
