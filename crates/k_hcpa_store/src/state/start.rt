//! The beginning of a run: the program's objects are made, and main's region is entered.
ghost use Rattle.std.specs.Prelude.{◌≡◌, ◌^◌, ◌<◌, length, slice_get, IfOk};
ghost use Rattle.k_code.specs.Valid.{IsValid};
ghost use Rattle.k_hcpa_store.specs.Leads.{Starts};
ghost use Rattle.k_hcpa_store.specs.Opening.{MakesObject, OpensAll, begins};
ghost use Rattle.k_code.specs.Runs.{begun_with, place_of, with_object};
ghost use Rattle.k_world.specs.Changes.{object_made, string_made};
ghost use Rattle.k_mem.specs.declared.start.Start.TheVariants.{Zero};
ghost use Rattle.k_hcpa_store.specs.Sound.{IsSound};

use super::State;
use crate::call::Call;
use crate::registers::Registers;
use k_code::{Code, CodeFunc, CodeObject};
use k_ending::{End, Trap};
use k_mem::{PushFault, Start};
use k_num::{Initial, NoMemory, Place};
use k_world::{RunState, Stop};
use std::alloc::Global;

impl<'a> State<'a> {
    /// A run of valid code begins, of at most so many operations.
    pub fn start(
        alloc: Global,
        code: &'a Code,
        input: &'a [u8],
        budget: u64,
    ) -> Result<State<'a>, Stop>
        requires { IsValid code.now }
        ensures starts { Starts code.now input.now budget result }
        ensures sound { IfOk result IsSound }
    {
        let _count = code.instrs.len();
        let mut world = RunState::new(alloc, budget, input);
        if let Err(stop) = open_objects(&mut world, code.objects.as_slice()) {
            return Err(stop);
        }
        match function_at(code.funcs.as_slice(), code.main) {
            Some(f) => match begin(alloc, code, f, world) {
                Ok(state) => Ok(state),
                Err(_) => Err(Stop::Memory),
            },
            None => Err(Stop::Memory),
        }
    }
}

/// The function of a number.
fn function_at(funcs: &[CodeFunc], func: u32) -> Option<CodeFunc>
    ensures { result ≡ slice_get funcs.now func }
{
    match funcs.get(func as usize) {
        Some(f) => Some(*f),
        None => None,
    }
}

/// Main is called, with nothing in its registers.
fn begin<'a>(
    alloc: Global,
    code: &'a Code,
    f: CodeFunc,
    mut world: RunState<'a>,
) -> Result<State<'a>, NoMemory>
    ensures { IfOk result (λ s. s ≡ begins code.now f world.entry) }
{
    let registers = Registers::unset(alloc, f.registers)?;
    let base = world.live_objects();
    world.set_calls(1, u64::from(f.size));
    Ok(State {
        code,
        pc: f.entry as usize,
        call: Call {
            func: code.main,
            first: 0,
            saved: 0,
            regions: 0,
            base,
        },
        waiting: Vec::new(alloc),
        registers,
        saved: Vec::new(alloc),
        world,
        reads: Vec::new(alloc),
    })
}

/// The objects of a program are made, one after another.
fn open_objects(world: &mut RunState<'_>, objects: &[CodeObject]) -> Result<(), Stop>
    ensures { OpensAll objects.now world.old result world.new }
{
    for object in objects {
        if let Err(stop) = open_one(world, object) {
            return Err(stop);
        }
    }
    Ok(())
}

/// An object of a program is made.
#[tactic(auto, unfolding(k_code::specs::Runs::with_object))]
fn open_one(world: &mut RunState<'_>, object: &CodeObject) -> Result<(), Stop>
    ensures { MakesObject (place_of object.now) (with_object object.now world.old) world.old result world.new }
{
    match object {
        CodeObject::Plain {
            elements,
            first,
            place,
        } => open_plain(world, *elements, first.as_slice(), *place),
        CodeObject::Literal { bytes, place } => open_string(world, bytes.as_slice(), *place),
    }
}

/// An object is made that begins with these numbers.
fn open_plain(
    world: &mut RunState<'_>,
    elements: u32,
    first: &[Initial],
    place: Place,
) -> Result<(), Stop>
    ensures { MakesObject place (begun_with first.now world.old.memory.made (object_made world.old Zero elements)) world.old result world.new }
{
    match world.push_object(elements, Start::Zero) {
        Ok(object) => match world.fill_object(object, first) {
            Ok(()) => Ok(()),
            Err(_) => Err(Stop::Memory),
        },
        Err(PushFault::MemoryLimit) => Err(Stop::Ended(End::Trapped(Trap::MemoryLimit, place))),
        Err(PushFault::Memory) => Err(Stop::Memory),
    }
}

/// The object of a string is made.
fn open_string(world: &mut RunState<'_>, bytes: &[u8], place: Place) -> Result<(), Stop>
    ensures { MakesObject place (string_made world.old bytes.now) world.old result world.new }
{
    match u32::try_from(bytes.len()) {
        Ok(elements) => open_bytes(world, bytes, elements, place),
        Err(_) => Err(Stop::Memory),
    }
}

/// The same where the count of its bytes is known.
fn open_bytes(
    world: &mut RunState<'_>,
    bytes: &[u8],
    elements: u32,
    place: Place,
) -> Result<(), Stop>
    requires { length bytes.now ≡ elements }
    ensures { MakesObject place (string_made world.old bytes.now) world.old result world.new }
{
    match world.push_object(elements, Start::Literal(bytes)) {
        Ok(_) => Ok(()),
        Err(PushFault::MemoryLimit) => Err(Stop::Ended(End::Trapped(Trap::MemoryLimit, place))),
        Err(PushFault::Memory) => Err(Stop::Memory),
    }
}
