//! Tables of what is kept of elements: for each the operations that may be the first of an open tracked instance to make an access of it.
ghost use Rattle.std.specs.Prelude.{◌≡◌, ◌≢◌, ◌<◌, ℕ, [], length, OnOk};
ghost use Rattle.k_mem.specs.declared.pointer.Pointer.{Pointer as PointerValue};
ghost use Rattle.k_carry_storage.specs.Tables.{IsNotedAt, IsNotedIn, kept_at, kept_in};

use k_carry_pairs::Origin;
use k_carry_storage_pairs::note;
use k_mem::Pointer;
use k_num::NoMemory;
use std::alloc::Global;

/// What is kept of an element.
#[derive(Drop)]
pub struct Kept {
    items: Vec<Origin>,
}

/// What is kept of the elements of an object.
#[derive(Drop)]
pub struct Row {
    elements: Vec<Kept>,
}

/// What is kept of all elements.
#[derive(Drop)]
pub struct Table {
    alloc: Global,
    rows: Vec<Row>,
}

impl Row {
    /// What is kept of an element, by its place in the object.
    fn get(&self, at: usize) -> &[Origin]
        ensures { result.now ≡ kept_in self.now at }
    {
        match self.elements.get(at) {
            Some(kept) => kept.items.as_slice(),
            None => &[],
        }
    }

    /// There is a place for an element.
    fn reserve(&mut self, alloc: Global, at: usize) -> Result<(), NoMemory>
        ensures same { (k : ℕ) → kept_in self.new k ≡ kept_in self.old k }
        ensures there { OnOk result (at < length self.new.elements.items) }
    {
        while self.elements.len() <= at {
            self.elements.push(Kept {
                items: Vec::new(alloc),
            })?;
        }
        Ok(())
    }

    /// An operation accessed an element.
    fn note(
        &mut self,
        alloc: Global,
        at: usize,
        starts: &[u64],
        origin: Origin,
        firsts: &mut Vec<Origin>,
    ) -> Result<(), NoMemory>
        ensures { OnOk result (IsNotedIn at starts.now origin self.old self.new) }
    {
        self.reserve(alloc, at)?;
        let kept = &mut self.elements[at];
        note(&mut kept.items, starts, origin, firsts)?;
        Ok(())
    }
}

impl Table {
    /// Nothing is kept.
    pub fn new(alloc: Global) -> Table
        ensures { (element : PointerValue) → kept_at result element ≡ [] }
    {
        Table {
            alloc,
            rows: Vec::new(alloc),
        }
    }

    /// What is kept of an element.
    pub fn get(&self, element: Pointer) -> &[Origin]
        ensures { result.now ≡ kept_at self.now element }
    {
        match self.rows.get(element.object as usize) {
            Some(row) => row.get(element.offset as usize),
            None => &[],
        }
    }

    /// There is a row for an object.
    fn reserve(&mut self, at: usize) -> Result<(), NoMemory>
        ensures same { (element : PointerValue) → kept_at self.new element ≡ kept_at self.old element }
        ensures there { OnOk result (at < length self.new.rows.items) }
    {
        while self.rows.len() <= at {
            self.rows.push(Row {
                elements: Vec::new(self.alloc),
            })?;
        }
        Ok(())
    }

    /// An operation accessed an element.
    pub fn note(
        &mut self,
        element: Pointer,
        starts: &[u64],
        origin: Origin,
        firsts: &mut Vec<Origin>,
    ) -> Result<(), NoMemory>
        ensures { OnOk result (IsNotedAt element starts.now origin self.old self.new) }
    {
        let alloc = self.alloc;
        self.reserve(element.object as usize)?;
        let row = &mut self.rows[element.object as usize];
        row.note(alloc, element.offset as usize, starts, origin, firsts)?;
        Ok(())
    }
}
