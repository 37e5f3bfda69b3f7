//! Where the operations stand in the source whose values are held, for each location that holds one.
//!
//! What is kept of a location is an operation with its place, and each is right whatever is kept where. So where values move needs no proof: a value whose
//! operation is not kept at its location costs time alone.
ghost use Rattle.std.specs.Prelude.{◌≡◌, Option, Some, None};
ghost use Rattle.k_carry.specs.Sources.{ArePlaces, IsTold, RowTold, Setting};

use crate::advance::Made;
use crate::cited::Spot;
use crate::row::Row;
use k_carry_pairs::Origin;
use k_code::{Arg, Do};
use k_num::NoMemory;
use std::alloc::Global;

/// For each location the operation that gave what it holds, with its place.
#[derive(Drop)]
pub struct Places {
    registers: Row,
    elements: Row,
    saved: Row,
    input: Option<Origin>,
    output: Option<Origin>,
    control: Option<Origin>,
}

/// Numbers of a call before an instruction: those of its first register, of the one behind its own, and of that of its caller that gets what it returns; and how
/// many control sources the older calls have saved.
#[derive(Clone, Copy)]
pub struct Bounds {
    pub first: u32,
    pub next: u32,
    pub back: Option<u32>,
    pub saved: usize,
}

impl Places {
    /// Nothing is kept.
    pub fn new(alloc: Global) -> Places
        ensures { (s : Setting) → ArePlaces s result }
    {
        Places {
            registers: Row::new(alloc),
            elements: Row::new(alloc),
            saved: Row::new(alloc),
            input: None,
            output: None,
            control: None,
        }
    }

    /// What is kept of a location.
    pub fn get(&self, spot: Spot) -> Option<Origin>
        ensures { (s : Setting) → ArePlaces s self.now → IsTold s result }
    {
        match spot {
            Spot::Register(at) => self.registers.get(at),
            Spot::Element(at) => self.elements.get(at),
            Spot::Input => self.input,
            Spot::Output => self.output,
            Spot::Control => self.control,
        }
    }

    /// An instruction that makes no operation moves a control source.
    pub fn move_control(&mut self, act: &Do) -> Result<(), NoMemory>
        ensures { (s : Setting) → ArePlaces s self.old → ArePlaces s self.new }
    {
        match act {
            Do::Save => self.saved.push(self.control),
            Do::Keep => {
                self.saved.pop();
                Ok(())
            }
            Do::Back => {
                self.control = self.saved.last();
                self.saved.pop();
                Ok(())
            }
            Do::Restore => {
                self.control = self.saved.last();
                Ok(())
            }
            _ => Ok(()),
        }
    }

    /// A register holds what an operation gave, if there is one.
    fn give(&mut self, register: Option<usize>, item: Option<Origin>) -> Result<(), NoMemory>
        ensures { (s : Setting) → ArePlaces s self.old → IsTold s item → ArePlaces s self.new }
    {
        match register {
            Some(at) => self.registers.set(at, item),
            None => Ok(()),
        }
    }

    /// An element holds what an operation gave, if there is one.
    fn store(&mut self, element: Option<u32>, item: Option<Origin>) -> Result<(), NoMemory>
        ensures { (s : Setting) → ArePlaces s self.old → IsTold s item → ArePlaces s self.new }
    {
        match element {
            Some(at) => self.elements.set(at as usize, item),
            None => Ok(()),
        }
    }

    /// Beside the register of its instruction these locations hold what an operation gave.
    fn affect(
        &mut self,
        act: &Do,
        made: Made,
        bounds: Bounds,
        item: Option<Origin>,
    ) -> Result<(), NoMemory>
        ensures { (s : Setting) → ArePlaces s self.old → IsTold s item → ArePlaces s self.new }
    {
        match act {
            Do::Store { .. } => self.store(made.element, item),
            Do::Input { .. } => {
                self.input = item;
                Ok(())
            }
            Do::Output { .. } => {
                self.output = item;
                Ok(())
            }
            Do::Test { .. } => {
                self.control = item;
                Ok(())
            }
            Do::Call { args, .. } => hand(&mut self.registers, args.as_slice(), bounds),
            _ => Ok(()),
        }
    }

    /// An operation was made by an instruction.
    pub fn follow(
        &mut self,
        act: &Do,
        made: Made,
        bounds: Bounds,
        origin: Origin,
    ) -> Result<(), NoMemory>
        ensures { (s : Setting) → ArePlaces s self.old → IsTold s (Some origin) → ArePlaces s self.new }
    {
        self.affect(act, made, bounds, Some(origin))?;
        self.give(register_of(act, bounds), Some(origin))
    }

    /// A call returned, behind which older calls have saved so many control sources.
    pub fn leave(&mut self, bounds: Bounds)
        ensures { (s : Setting) → ArePlaces s self.old → ArePlaces s self.new }
    {
        self.saved.truncate(bounds.saved);
    }
}

/// Parameters hold what operands hold.
fn hand(registers: &mut Row, args: &[Arg], bounds: Bounds) -> Result<(), NoMemory>
    ensures { (s : Setting) → RowTold s registers.old → RowTold s registers.new }
{
    let mut at = bounds.next as usize;
    let mut rest = args;
    while let Some((arg, later)) = rest.split_first() {
        let item = operand(registers, arg, bounds.first);
        registers.set(at, item)?;
        at = at.saturating_add(1);
        rest = later;
    }
    Ok(())
}

/// What is kept of what an operand reads.
fn operand(registers: &Row, arg: &Arg, first: u32) -> Option<Origin>
    ensures { (s : Setting) → RowTold s registers.now → IsTold s result }
{
    match arg {
        Arg::Number(_) => None,
        Arg::Reg(r, _) => registers.get(first as usize + *r as usize),
    }
}

/// The register that holds what the operation of an instruction gave, if one does.
fn register_of(act: &Do, bounds: Bounds) -> Option<usize> {
    let to = match act {
        Do::Binary { to, .. } => *to,
        Do::Unary { to, .. } => *to,
        Do::Convert { to, .. } => *to,
        Do::Move { to, .. } => *to,
        Do::Offset { to, .. } => *to,
        Do::PtrCompare { to, .. } => *to,
        Do::PtrDistance { to, .. } => *to,
        Do::Load { to, .. } => *to,
        Do::Input { to } => *to,
        Do::Output { to, .. } => *to,
        Do::Store { to: Some(to), .. } => *to,
        Do::Test { to: Some(to), .. } => *to,
        Do::Return { .. } => return back_of(bounds),
        _ => return None,
    };
    Some(bounds.first as usize + to as usize)
}

/// The register of the caller.
fn back_of(bounds: Bounds) -> Option<usize> {
    match bounds.back {
        Some(at) => Some(at as usize),
        None => None,
    }
}
