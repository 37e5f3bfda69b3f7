//! The objects of a running program's state: made, set and let die without an operation.
ghost use Rattle.std.specs.Prelude.{◌≡◌, ◌+◌, ◌^◌, ◌<◌, ◌≤◌, ◌++◌, ◌↔◌, [], ◌∷◌, length, replicate, slice_get, option_map, vec_len, IfOk, OnOk, OnErr};
ghost use Rattle.k_mem.specs.Calls.{HasLength, fill_of, first_of, length_of, push_of, store_of, stored};
ghost use Rattle.k_mem.specs.Memory.{Object};
ghost use Rattle.k_world.specs.Acts.{element_or_none, touched};
ghost use Rattle.k_world.specs.Operands.{values_of};
ghost use Rattle.k_world.specs.declared.act.Act.TheVariants.{Store};
ghost use Rattle.k_world.specs.Changes.{item_stored, memory_filled, object_filled, object_made, objects_kept, without_origins};

use super::RunState;
use crate::Read;
use crate::operands::pointer_to_store;
use k_mem::{MemTrap, Objects, Pointer, PushFault, Start};
use k_num::{Initial, NoMemory};

impl<'a> RunState<'a> {
    /// Makes an object and answers its number. No operation gave its elements. Past the limit it is refused before memory is asked for.
    pub fn push_object(&mut self, elements: u32, start: Start<'_>) -> Result<u64, PushFault>
        requires { HasLength start elements }
        ensures number { IfOk result (λ number. number ≡ self.old.memory.made) }
        ensures made { OnOk result (object_made self.old start.entry elements ≡ Some self.new) }
        ensures limit { (result ≡ Err PushFault.MemoryLimit) ↔ (push_of self.old.memory start.entry elements ≡ None) }
        ensures err { OnErr result (self.new ≡ self.old) }
    {
        if self.objects.is_full(elements) {
            return Err(PushFault::MemoryLimit);
        }
        let len = self.origins.len();
        append_none(&mut self.origins, elements)?;
        match self.objects.push_object(elements, start) {
            Ok(number) => Ok(number),
            Err(fault) => {
                self.origins.truncate(len);
                Err(fault)
            }
        }
    }

    /// Sets all elements of an object: to 0, and then those that items name to their numbers, in the order of the items. No
    /// operation gave them. Items past the object's end are left out. A dead object is refused, and then a literal's.
    pub fn fill_object(&mut self, object: u64, items: &[Initial]) -> Result<(), MemTrap>
        ensures answer { result ≡ fill_of self.old.memory object }
        ensures ok { OnOk result (self.new ≡ object_filled self.old object items.now) }
        ensures err { OnErr result (self.new ≡ self.old) }
    {
        let first = self.objects.first_element(object)? as usize;
        let count = self.objects.length(object)? as usize;
        fill_items(&mut self.objects, object, items)?;
        clear_origins(&mut self.origins, first, count);
        Ok(())
    }

    /// The number of the live object at a place among them, the oldest of which is at 0.
    #[inline(always)]
    pub fn number_at(&self, place: u64) -> Option<u64>
        ensures { result ≡ option_map (λ (o : Object). o.number) (slice_get self.now.memory.live place) }
    {
        self.objects.number_at(place)
    }

    /// The number of an object's first element, or the one that it would have. The others follow it.
    pub fn first_element(&self, object: u64) -> Result<u32, MemTrap>
        ensures { result ≡ first_of self.now.memory object }
    {
        self.objects.first_element(object)
    }

    /// How many elements an object has.
    #[inline(always)]
    pub fn length(&self, object: u64) -> Result<u32, MemTrap>
        ensures { result ≡ length_of self.now.memory object }
    {
        self.objects.length(object)
    }

    /// The element that a store of these operands would write.
    pub fn element_to_store(&self, at: Read, a: Read) -> Option<u32>
        ensures { result ≡ touched Store (values_of (at ∷ a ∷ [])) self.now.memory }
    {
        match pointer_to_store(at, a) {
            Some(pointer) => self.element_written(pointer),
            None => None,
        }
    }

    /// The element that a store to a pointer writes.
    fn element_written(&self, pointer: Pointer) -> Option<u32>
        ensures { result ≡ element_or_none (store_of self.now.memory pointer) }
    {
        match self.objects.element_to_store(pointer) {
            Ok(element) => Some(element),
            Err(_) => None,
        }
    }

    /// Lets the newest objects die until `keep` are live.
    pub fn pop_objects(&mut self, keep: u64)
        requires { keep ≤ length self.old.memory.live }
        ensures { self.new ≡ objects_kept self.old keep }
    {
        self.objects.pop_objects(keep);
        self.origins.truncate(self.objects.live_elements() as usize);
    }
}

/// Adds the origins of new elements, which no operation gave. A refusal leaves the origins as they were.
fn append_none(origins: &mut Vec<Option<u64>>, count: u32) -> Result<(), NoMemory>
    requires { vec_len origins.old + count < 2 ^ 64 }
    ensures ok { OnOk result (origins.new.items ≡ origins.old.items ++ replicate count None) }
    ensures err { OnErr result (origins.new.items ≡ origins.old.items) }
{
    origins.resize(origins.len() + count as usize, None)?;
    Ok(())
}

/// All elements of an object are 0, and then those that items name have their numbers.
#[tactic(auto, using(crate::proofs::Filled::filled_writable))]
fn fill_items(objects: &mut Objects, object: u64, items: &[Initial]) -> Result<(), MemTrap>
    ensures answer { result ≡ fill_of objects.old object }
    ensures ok { OnOk result (objects.new ≡ memory_filled objects.old object items.now) }
    ensures err { OnErr result (objects.new ≡ objects.old) }
{
    objects.fill(object, &[])?;
    for item in items {
        store_item(objects, object, item);
    }
    Ok(())
}

/// An element of an object that may be written has a number from now on, if the object has that element.
fn store_item(objects: &mut Objects, object: u64, item: &Initial)
    requires { fill_of objects.old object ≡ Ok tt }
    ensures stored { objects.new ≡ item_stored object objects.old item.now }
    ensures writable { fill_of objects.new object ≡ Ok tt }
{
    let at = Pointer {
        object,
        offset: u64::from(item.element),
    };
    store_at(objects, at, item.number);
}

/// An element of an object that may be written has this number from now on, if the object has that element.
#[tactic(auto, using(crate::proofs::Filled::store_refused, crate::proofs::Filled::stored_writable))]
fn store_at(objects: &mut Objects, at: Pointer, number: i128)
    requires { fill_of objects.old at.object ≡ Ok tt }
    ensures stored { objects.new ≡ stored objects.old at number }
    ensures writable { fill_of objects.new at.object ≡ Ok tt }
{
    match objects.store(at, number) {
        Ok(_) => {}
        Err(_) => {}
    }
}

/// So many elements from the first on were given by no operation.
fn clear_origins(origins: &mut [Option<u64>], first: usize, count: usize)
    requires { first + count ≤ length origins.old }
    ensures { origins.new ≡ without_origins (Ok first) (Ok count) origins.old }
{
    clear(&mut origins[first..first + count]);
}

/// None of these elements was given by an operation.
fn clear(origins: &mut [Option<u64>])
    ensures { origins.new ≡ replicate (length origins.old) None }
{
    origins.fill(None);
}
