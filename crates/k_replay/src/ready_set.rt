//! A set of numbers below a limit, of which the least is found quickly.
ghost use Rattle.std.specs.Prelude.{◌≡◌, ◌+◌, ◌*◌, ◌<◌, ◌≤◌, ℕ, true, false, length, replicate, slice_index_or, slice_set, IfNone, IfOk, IfSome};
ghost use Rattle.k_replay.specs.Ready.{IsFound};

use k_num::NoMemory;
use std::alloc::Global;
use std::marker::Model;

/// How many numbers one block has.
const BLOCK: usize = 2048;

/// Which numbers are in the set, each by a flag. A block of numbers without a mark has none of them.
#[derive(Drop)]
pub(crate) struct ReadySet {
    flags: Vec<bool>,
    blocks: Vec<bool>,
}

impl Model for ReadySet {
    ghost use Rattle.std.specs.Prelude.{Bool, List};
    ghost use Rattle.k_replay.specs.Blocks.{AreMarked};

    ghost Value = { List Bool };

    ghost view = { λ s. s.flags.items };

    ghost invariant = { λ s. AreMarked s.flags.items s.blocks.items };
}

impl ReadySet {
    /// The empty set of numbers below a limit.
    pub(crate) fn new(alloc: Global, limit: usize) -> Result<ReadySet, NoMemory>
        ensures { IfOk result (λ s. s ≡ replicate limit false) }
    {
        let blocks = Vec::from_elem(alloc, false, limit / BLOCK + 1)?;
        let flags = Vec::from_elem(alloc, false, limit)?;
        Ok(ReadySet { flags, blocks })
    }

    /// Puts a number into the set, or takes it out.
    pub(crate) fn set(&mut self, k: usize, within: bool)
        requires { k < length self.old }
        ensures { self.new ≡ slice_set self.old k within }
    {
        self.flags[k] = within;
        if within {
            self.blocks[k / BLOCK] = true;
        }
    }

    /// The least number in the set. The marks of blocks that are found empty are taken away.
    pub(crate) fn first(&mut self) -> Option<usize>
        ensures found { IsFound self.old result }
        ensures same { self.new ≡ self.old }
    {
        for b in 0..self.blocks.len() {
            if self.blocks[b] {
                if let Some(k) = first_from(&self.flags, b * BLOCK) {
                    return Some(k);
                }
                self.blocks[b] = false;
            }
        }
        None
    }
}

/// The first flag that is set, among so many from this one on.
fn first_from(flags: &[bool], from: usize) -> Option<usize>
    requires { from ≤ length flags.now }
    ensures none { IfNone result ((k : ℕ) → from ≤ k → k < from + BLOCK → slice_index_or flags.now k false ≡ false) }
    ensures found { IfSome result (λ k. (from ≤ k) × (slice_index_or flags.now k false ≡ true)) }
    ensures first { IfSome result (λ k. (j : ℕ) → from ≤ j → j < k → slice_index_or flags.now j false ≡ false) }
{
    for k in from..flags.len() {
        if k - from >= BLOCK {
            return None;
        }
        if flags[k] {
            return Some(k);
        }
    }
    None
}
