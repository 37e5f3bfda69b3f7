//! Counts of faults and of ends, and which calls of an object in memory fail.
ghost use Rattle.std.specs.Prelude.{◌≡◌, ◌+◌, ◌-◌, ◌^◌, min, IfOk};
ghost use Rattle.k_edge.specs.Fault.{Rose};
ghost use Rattle.k_edge.specs.Calls.{next_fails, after_call};
ghost use Rattle.k_edge.specs.SourceWords.{ended_after};

use k_num::NoMemory;
use std::alloc::Global;
use std::marker::Model;

/// One more than a count, which stays at the greatest number once it has reached it.
pub fn risen(count: u64) -> u64
    ensures { Rose count result }
{
    count.saturating_add(1)
}

/// The count of reads that told the end, behind one of `count` bytes into a buffer of `size` bytes. It stays at
/// the greatest number once it has reached it.
pub fn ended_after(ended: u64, count: usize, size: usize) -> u64
    ensures { result ≡ ended_after ended count size }
{
    if count == 0 && size != 0 {
        ended.saturating_add(1)
    } else {
        ended
    }
}

/// Which calls fail, by their numbers.
#[derive(Debug, Drop)]
pub struct Calls {
    next: u64,
    failing: Vec<u64>,
}

impl Model for Calls {
    ghost use Rattle.k_edge.specs.Calls.{Schedule};

    ghost Value = { Schedule };

    ghost view = { λ c. record { next = c.next; failing = c.failing.items } };
}

impl Calls {
    pub fn new(alloc: Global, failing: &[u64]) -> Result<Calls, NoMemory>
        ensures { IfOk result (λ calls. calls ≡ record { next = 0; failing = failing.now }) }
    {
        Ok(Calls {
            next: 0,
            failing: Vec::from_slice(alloc, failing)?,
        })
    }

    /// Whether the next call fails. It counts that call.
    pub fn fails(&mut self) -> bool
        ensures answer { result ≡ next_fails self.old }
        ensures counted { self.new ≡ after_call self.old }
    {
        let fails = self.failing.as_slice().contains(&self.next);
        self.next = self.next.saturating_add(1);
        fails
    }
}
