//! Rows of operations with their places.
ghost use Rattle.std.specs.Prelude.{◌≡◌};
ghost use Rattle.k_carry.specs.Sources.{IsTold, RowTold, Setting};

use k_carry_pairs::Origin;
use k_num::NoMemory;
use std::alloc::Global;

/// For each of some locations, by number, the operation that gave what it holds, if it is kept.
#[derive(Drop)]
pub struct Row {
    items: Vec<Option<Origin>>,
}

impl Row {
    /// Nothing is kept.
    pub fn new(alloc: Global) -> Row
        ensures { (s : Setting) → RowTold s result }
    {
        Row {
            items: Vec::new(alloc),
        }
    }

    /// What is kept of a location.
    pub fn get(&self, at: usize) -> Option<Origin>
        ensures { (s : Setting) → RowTold s self.now → IsTold s result }
    {
        match self.items.get(at) {
            Some(item) => *item,
            None => None,
        }
    }

    /// This is kept of a location from now on.
    pub fn set(&mut self, at: usize, item: Option<Origin>) -> Result<(), NoMemory>
        ensures { (s : Setting) → RowTold s self.old → IsTold s item → RowTold s self.new }
    {
        while self.items.len() <= at {
            self.items.push(None)?;
        }
        if let Some(slot) = self.items.get_mut(at) {
            *slot = item;
        }
        Ok(())
    }

    /// This is kept behind all others.
    pub fn push(&mut self, item: Option<Origin>) -> Result<(), NoMemory>
        ensures { (s : Setting) → RowTold s self.old → IsTold s item → RowTold s self.new }
    {
        self.items.push(item)?;
        Ok(())
    }

    /// What is kept last.
    pub fn last(&self) -> Option<Origin>
        ensures { (s : Setting) → RowTold s self.now → IsTold s result }
    {
        match self.items.last() {
            Some(item) => *item,
            None => None,
        }
    }

    /// What is kept last is kept no more.
    pub fn pop(&mut self)
        ensures { (s : Setting) → RowTold s self.old → RowTold s self.new }
    {
        self.items.truncate(self.items.len().saturating_sub(1));
    }

    /// So many are kept at most.
    pub fn truncate(&mut self, count: usize)
        ensures { (s : Setting) → RowTold s self.old → RowTold s self.new }
    {
        self.items.truncate(count);
    }
}
