//! Instructions that make no operation, but for returns and for those that enter or leave a region.
ghost use Rattle.std.specs.Prelude.{◌≡◌, ℕ, ◌+◌, ◌-◌, ◌<◌, ◌^◌, [], ◌∷◌, ◌++◌, length, slice_get, slice_index_or, option_map, None, Some, Ok, true};
ghost use Rattle.k_mem.specs.declared.start.Start.TheVariants.{Unset};
ghost use Rattle.k_world.specs.Changes.{object_made, objects_kept};
ghost use Rattle.k_world.specs.Values.{pointer_to as pointer_meant};
ghost use Rattle.k_code.specs.Steps.{number_of};
ghost use Rattle.k_hcpa_store.specs.Leads.{GoesAlone, IsNext, goes_alone};
ghost use Rattle.k_hcpa_store.specs.Parts.{Comes, Fills, Opens, named_object};
ghost use Rattle.k_hcpa_store.specs.Slots.{CanKeep};
ghost use Rattle.k_hcpa_store.specs.Sound.{IsSound};
ghost use Rattle.k_world.specs.Operands.{source_in};

use super::State;
use crate::Alone;
use k_code::{Do, Home, Instr};
use k_ending::{End, Trap};
use k_mem::{Pointer, PushFault, Start};
use k_num::{Initial, Place};
use k_world::{Held, Stop, Value};

impl<'a> State<'a> {
    /// Does what an instruction does that makes no operation, is no return, and enters and leaves no region.
    pub fn alone(&mut self, instr: &Instr) -> Result<Alone, Stop>
        requires sound { IsSound self.old }
        requires next { IsNext self.old instr.now }
        requires alone { goes_alone instr.now.act ≡ true }
        ensures { GoesAlone self.old instr.now.act result self.new × IsSound self.new }
    {
        let next = self.next();
        match &instr.act {
            Do::Jump { to } => {
                self.go(*to as usize);
                Ok(Alone::Went)
            }
            Do::FallOff => Err(Stop::Ended(End::Trapped(Trap::FallOff, instr.place))),
            Do::Address { home, offset, to } => {
                let slot = pointer_to(self.object_at(*home), *offset);
                self.set_and_on(Some(*to), slot, next);
                Ok(Alone::Went)
            }
            Do::ObjectOpen { elements } => self.open_object(instr.place, *elements, next),
            Do::ObjectsClose { count } => {
                self.close_objects(*count, next);
                Ok(Alone::Went)
            }
            Do::Fill { local, values } => self.fill_local(*local, values.as_slice(), next),
            Do::Forget { register } => {
                self.set_and_on(Some(*register), None, next);
                Ok(Alone::Went)
            }
            Do::Save => self.save(next),
            Do::Keep => {
                self.drop_saved(next);
                Ok(Alone::Went)
            }
            Do::Back => {
                let source = self.drop_saved(next);
                self.set_control(source, next);
                Ok(Alone::Went)
            }
            Do::Restore => {
                let source = self.newest_saved();
                self.set_control(source, next);
                Ok(Alone::Went)
            }
            _ => Err(Stop::Memory),
        }
    }

    /// The number of the instruction behind the next one.
    #[inline(always)]
    pub fn next(&self) -> usize
        requires { self.now.pc + 1 < 2 ^ 64 }
        ensures { result ≡ self.now.pc + 1 }
    {
        self.pc + 1
    }

    /// The run goes on at an instruction.
    #[inline(always)]
    pub fn go(&mut self, pc: usize)
        ensures { self.new ≡ record self.old { pc = pc } }
    {
        self.pc = pc;
    }

    /// The control source is saved.
    #[inline(always)]
    pub fn save(&mut self, next: usize) -> Result<Alone, Stop>
        ensures { Comes (record self.old { pc = next; saved = self.old.saved ++ self.old.world.control ∷ [] }) self.old result self.new }
    {
        let control = self.world.control();
        match self.saved.push(control) {
            Ok(()) => {
                self.pc = next;
                Ok(Alone::Went)
            }
            Err(_) => Err(Stop::Memory),
        }
    }

    /// The control source that was saved last is dropped.
    #[inline(always)]
    pub fn drop_saved(&mut self, next: usize) -> Option<u64>
        requires { 0 < length self.old.saved }
        ensures rest { self.new ≡ record self.old { pc = next; saved = self.new.saved } }
        ensures newest { self.old.saved ≡ self.new.saved ++ result ∷ [] }
    {
        self.pc = next;
        match self.saved.pop() {
            Some(source) => source,
            None => None,
        }
    }

    /// The control source that was saved last.
    #[inline(always)]
    pub fn newest_saved(&self) -> Option<u64>
        requires { 0 < length self.now.saved }
        ensures { result ≡ slice_index_or self.now.saved (length self.now.saved - 1) None }
    {
        self.saved[self.saved.len() - 1]
    }

    /// The control source is this from now on.
    #[inline(always)]
    pub fn set_control(&mut self, control: Option<u64>, next: usize)
        ensures { self.new ≡ record self.old { pc = next; world = record self.old.world { control = control } } }
    {
        self.world.set_control(control);
        self.pc = next;
    }

    /// The number of the object of the newest call that has this number among its own.
    #[inline(always)]
    pub fn local_object(&self, number: u32) -> Option<u64>
        ensures { result ≡ number_of (slice_get self.now.world.memory.live (self.now.call.base + number)) }
    {
        let _live = self.world.live_objects();
        self.world
            .number_at(self.call.base.saturating_add(u64::from(number)))
    }

    /// The number of the object that an instruction names.
    fn object_at(&self, home: Home) -> Option<u64>
        ensures { result ≡ named_object home self.now }
    {
        match home {
            Home::File(number) => Some(u64::from(number)),
            Home::Local(number) => self.local_object(number),
        }
    }

    /// The newest objects die, so many of them.
    fn close_objects(&mut self, count: u32, next: usize)
        ensures { self.new ≡ record self.old { pc = next; world = objects_kept self.old.world (length self.old.world.memory.live - count) } }
    {
        let keep = self.world.live_objects().saturating_sub(u64::from(count));
        self.world.pop_objects(keep);
        self.pc = next;
    }

    /// An object of so many elements is made, unset. Past the limit the run ends.
    fn open_object(&mut self, place: Place, elements: u32, next: usize) -> Result<Alone, Stop>
        ensures { Opens place next (object_made self.old.world Unset elements) self.old result self.new }
    {
        match self.world.push_object(elements, Start::Unset) {
            Ok(_) => {
                self.pc = next;
                Ok(Alone::Went)
            }
            Err(PushFault::MemoryLimit) => Err(Stop::Ended(End::Trapped(Trap::MemoryLimit, place))),
            Err(PushFault::Memory) => Err(Stop::Memory),
        }
    }

    /// The elements of an object of the newest call are set.
    fn fill_local(&mut self, local: u32, values: &[Initial], next: usize) -> Result<Alone, Stop>
        ensures { Fills (number_of (slice_get self.old.world.memory.live (self.old.call.base + local))) values.now next self.old result self.new }
    {
        match self.local_object(local) {
            Some(object) => self.fill(object, values, next),
            None => Err(Stop::Memory),
        }
    }

    /// The elements of an object are set. An object that is dead or cannot be written is answered as want of memory: none is set that a
    /// call has not made to be written.
    fn fill(&mut self, object: u64, values: &[Initial], next: usize) -> Result<Alone, Stop>
        ensures { Fills (Some object) values.now next self.old result self.new }
    {
        let (Ok(first), Ok(count)) = (self.world.first_element(object), self.world.length(object))
        else {
            return Err(Stop::Memory);
        };
        match self.world.fill_object(object, values) {
            Ok(()) => {
                self.pc = next;
                Ok(Alone::Filled { first, count })
            }
            Err(_) => Err(Stop::Memory),
        }
    }
}

/// A pointer to an element of an object, which no operation gave.
fn pointer_to(object: Option<u64>, offset: u32) -> Option<Held>
    ensures meant { result ≡ option_map (λ n. pointer_meant n offset) object }
    ensures keeps { CanKeep (source_in result) }
{
    match object {
        Some(object) => Some(Held {
            value: Value::Pointer(Pointer {
                object,
                offset: u64::from(offset),
            }),
            source: None,
        }),
        None => None,
    }
}
