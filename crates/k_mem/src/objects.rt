//! The objects of a running program.
ghost use Rattle.std.specs.Prelude.{◌≡◌, ◌+◌, ◌^◌, ◌<◌, ◌≤◌, [], ◌∷◌, ◌++◌, length, vec_len, IfOk, OnOk, OnErr, ◌↔◌, None, Some, Ok, slice_get, option_map};
ghost use Rattle.k_mem.specs.Memory.{IsLaidOut, Object, live_elements};
ghost use Rattle.k_mem.specs.Layout.{extent_made};
ghost use Rattle.k_mem.specs.Calls.{HasLength, elements_at, is_over_limit, push_of, popped, load_of, store_of, stored, fill_of, filled, first_of, length_of, element_of, shift_of, order_of, same_of};

use crate::cells::{append_elements, cell_at, set_part};
use crate::extent::{
    self, Extent, element_at, extent_at, order_among, same_among, shifted, writable_at, writable_of,
};
use crate::{MemTrap, Pointer, PushFault, Start};
use k_num::NoMemory;
use std::alloc::Global;
use std::marker::Model;

/// The most live elements that there may be.
const ELEMENT_LIMIT: usize = 4_194_304;

/// The most objects that may ever be made.
const OBJECT_LIMIT: u64 = 1 << 62;

/// The live objects of a running program, seen as a list of objects with their elements, beside the count of
/// objects ever made.
///
/// Objects are made and die as on a stack. An object's number is the count of the objects made before it, and
/// no other object ever has it, so a pointer to a dead object dangles for good. Element numbers are below
/// 4,194,304, those of one object follow one another, and they are used again after a pop.
#[derive(Debug, Drop)]
pub struct Objects {
    extents: Vec<Extent>,
    cells: Vec<Option<i128>>,
    made: u64,
}

impl Model for Objects {
    ghost use Rattle.k_mem.specs.Memory.{Memory};
    ghost use Rattle.std.specs.Prelude.{length};
    ghost use Rattle.k_mem.specs.Layout.{memory_in, AreKept};

    ghost Value = { Memory };

    ghost view = { λ s. memory_in s.extents.items s.cells.items s.made };

    ghost invariant = { λ s. AreKept s.extents.items (length s.cells.items) s.made };
}

impl Objects {
    /// No object is live, and none was made.
    pub fn new(alloc: Global) -> Objects
        ensures start { result ≡ record { live = []; made = 0 } }
        ensures laid_out { IsLaidOut result }
    {
        Objects {
            extents: Vec::new(alloc),
            cells: Vec::new(alloc),
            made: 0,
        }
    }

    /// Makes an object and answers its number.
    pub fn push_object(&mut self, elements: u32, start: Start<'_>) -> Result<u64, PushFault>
        requires { HasLength start elements }
        ensures number { IfOk result (λ number. number ≡ self.old.made) }
        ensures made { OnOk result (push_of self.old start.entry elements ≡ Some self.new) }
        ensures limit { (result ≡ Err PushFault.MemoryLimit) ↔ (push_of self.old start.entry elements ≡ None) }
        ensures err { OnErr result (self.new ≡ self.old) }
        ensures laid_out { IsLaidOut self.new }
    {
        if self.is_full(elements) {
            return Err(PushFault::MemoryLimit);
        }
        let number = self.made;
        append_object(&mut self.extents, &mut self.cells, number, elements, start)?;
        self.made += 1;
        Ok(number)
    }

    /// Whether one more object, of so many elements, would pass the limit.
    pub fn is_full(&self, elements: u32) -> bool
        ensures full { result ≡ is_over_limit (live_elements self.now) elements self.now.made }
        ensures laid_out { IsLaidOut self.now }
    {
        is_over_limit(self.cells.len(), elements, self.made)
    }

    /// Lets the newest objects die until `keep` are live.
    pub fn pop_objects(&mut self, keep: u64)
        requires { keep ≤ length self.old.live }
        ensures kept { self.new ≡ popped self.old keep }
        ensures laid_out { IsLaidOut self.new }
    {
        let keep = keep as usize;
        if keep < self.extents.len() {
            let end = extent_at(&self.extents, keep).first;
            self.cells.truncate(end as usize);
            self.extents.truncate(keep);
        }
    }

    /// How many objects are live.
    #[inline(always)]
    pub fn live_objects(&self) -> u64
        ensures count { result ≡ length self.now.live }
        ensures laid_out { IsLaidOut self.now }
    {
        self.extents.len() as u64
    }

    /// How many elements the live objects have together.
    pub fn live_elements(&self) -> u64
        ensures count { result ≡ live_elements self.now }
        ensures laid_out { IsLaidOut self.now }
    {
        self.cells.len() as u64
    }

    /// The value of the element pointed to, and the element's number.
    #[inline(always)]
    pub fn load(&self, at: Pointer) -> Result<(i128, u32), MemTrap>
        ensures value { result ≡ load_of self.now at }
        ensures laid_out { IsLaidOut self.now }
    {
        let element = element_at(&self.extents, at)?;
        match cell_at(&self.cells, element as usize) {
            Some(value) => Ok((value, element)),
            None => Err(MemTrap::Uninit),
        }
    }

    /// Writes the element pointed to, and answers its number.
    #[inline(always)]
    pub fn store(&mut self, at: Pointer, v: i128) -> Result<u32, MemTrap>
        ensures element { result ≡ store_of self.old at }
        ensures ok { OnOk result (self.new ≡ stored self.old at v) }
        ensures err { OnErr result (self.new ≡ self.old) }
        ensures laid_out { IsLaidOut self.new }
    {
        let element = writable_at(&self.extents, at)?;
        self.cells[element as usize] = Some(v);
        Ok(element)
    }

    /// Writes the element pointed to, which may be written and of which the caller knows the number.
    #[inline(always)]
    pub fn set(&mut self, at: Pointer, element: u32, v: i128)
        requires { store_of self.old at ≡ Ok element }
        ensures written { self.new ≡ stored self.old at v }
        ensures laid_out { IsLaidOut self.new }
    {
        let cell = element as usize;
        self.cells[cell] = Some(v);
    }

    /// Sets all elements of an object: to the values from the first on, and to 0 beyond them. Values past the last
    /// element are left out. A dead object is refused, and then a literal's.
    pub fn fill(&mut self, object: u64, values: &[i128]) -> Result<(), MemTrap>
        ensures answer { result ≡ fill_of self.old object }
        ensures ok { OnOk result (self.new ≡ filled self.old object values.now) }
        ensures err { OnErr result (self.new ≡ self.old) }
        ensures laid_out { IsLaidOut self.new }
    {
        let extent = writable_of(&self.extents, object)?;
        set_part(
            &mut self.cells,
            extent.first as usize,
            extent.length as usize,
            values,
        );
        Ok(())
    }

    /// The number of an object's first element, or the one that it would have. The others follow it.
    pub fn first_element(&self, object: u64) -> Result<u32, MemTrap>
        ensures element { result ≡ first_of self.now object }
        ensures laid_out { IsLaidOut self.now }
    {
        extent::first_of(&self.extents, object)
    }

    /// How many elements an object has.
    #[inline(always)]
    pub fn length(&self, object: u64) -> Result<u32, MemTrap>
        ensures count { result ≡ length_of self.now object }
        ensures laid_out { IsLaidOut self.now }
    {
        extent::length_of(&self.extents, object)
    }

    /// The number of the element pointed to, also of an unset one.
    #[inline(always)]
    pub fn element(&self, at: Pointer) -> Result<u32, MemTrap>
        ensures element { result ≡ element_of self.now at }
        ensures laid_out { IsLaidOut self.now }
    {
        element_at(&self.extents, at)
    }

    /// The number of the element pointed to, where it may be written.
    #[inline(always)]
    pub fn element_to_store(&self, at: Pointer) -> Result<u32, MemTrap>
        ensures element { result ≡ store_of self.now at }
        ensures laid_out { IsLaidOut self.now }
    {
        writable_at(&self.extents, at)
    }

    /// The number of the live object at a place among them, the oldest of which is at 0.
    #[inline(always)]
    pub fn number_at(&self, place: u64) -> Option<u64>
        ensures number { result ≡ option_map (λ (o : Object). o.number) (slice_get self.now.live place) }
        ensures laid_out { IsLaidOut self.now }
    {
        extent::number_at(&self.extents, place as usize)
    }

    /// The pointer that lies `by` elements further on.
    pub fn shift(&self, at: Pointer, by: i128) -> Result<Pointer, MemTrap>
        ensures pointer { result ≡ shift_of self.now at by }
        ensures laid_out { IsLaidOut self.now }
    {
        shifted(&self.extents, at, by)
    }

    /// How many elements `a` lies after `b` in their object.
    pub fn order(&self, a: Pointer, b: Pointer) -> Result<i128, MemTrap>
        ensures difference { result ≡ order_of self.now a b }
        ensures laid_out { IsLaidOut self.now }
    {
        order_among(&self.extents, a, b)
    }

    /// Whether the two pointers are equal.
    pub fn same(&self, a: Pointer, b: Pointer) -> Result<bool, MemTrap>
        ensures same { result ≡ same_of self.now a b }
        ensures laid_out { IsLaidOut self.now }
    {
        same_among(&self.extents, a, b)
    }
}

/// Whether so many elements more would be too many, or no number is left for another object.
fn is_over_limit(live: usize, elements: u32, made: u64) -> bool
    requires { live < 2 ^ 63 }
    ensures { result ≡ is_over_limit live elements made }
{
    live + elements as usize > ELEMENT_LIMIT || made >= OBJECT_LIMIT
}

/// Adds an object behind the others. A refusal leaves extents and cells as they were.
fn append_object(
    extents: &mut Vec<Extent>,
    cells: &mut Vec<Option<i128>>,
    number: u64,
    elements: u32,
    start: Start<'_>,
) -> Result<(), NoMemory>
    requires literal { HasLength start elements }
    requires room { vec_len cells.old < 2 ^ 32 }
    ensures extents { OnOk result (extents.new.items ≡ extents.old.items ++ extent_made start.entry elements number (length cells.old.items) ∷ []) }
    ensures cells { OnOk result (cells.new.items ≡ cells.old.items ++ elements_at start.entry elements) }
    ensures extents_stay { OnErr result (extents.new.items ≡ extents.old.items) }
    ensures cells_stay { OnErr result (cells.new.items ≡ cells.old.items) }
{
    let first = cells.len() as u32;
    let writable = start.is_writable();
    extents.reserve(1)?;
    append_elements(cells, elements, start)?;
    extents.push_reserved(Extent {
        number,
        first,
        length: elements,
        writable,
    });
    Ok(())
}
