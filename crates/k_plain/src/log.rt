//! The list of events as it grows.
ghost use Rattle.std.specs.Prelude.{◌≡◌, [], ◌∷◌, ◌++◌, None, OnOk, replicate};
ghost use Rattle.k_optab.specs.declared.event.Event.TheVariants.{Enter, Exit, Op};
ghost use Rattle.k_world.specs.Operands.{sources as sources_meant};
ghost use Rattle.k_plain.specs.Kinds.{where_moved};

use k_code::Instr;
use k_num::{NoMemory, Seq};
use k_optab::{Class, Event};
use k_world::{Done, Held, Read, Value, sources};
use std::alloc::Global;

/// The events so far, and what the operands of the newest instruction read.
#[derive(Drop)]
pub struct Log {
    pub events: Seq<Event>,
    pub reads: Vec<Read>,
}

/// An operation was made by this instruction, with the operands that were read.
pub fn note_operation(
    alloc: Global,
    log: &mut Log,
    class: Class,
    instr: &Instr,
    done: &Done,
) -> Result<(), NoMemory>
    ensures { OnOk result (log.new.events ≡ log.old.events ++ Op class instr.now.latency (sources_meant log.old.reads.items done.now.hidden done.now.control) instr.now.place ∷ []) }
{
    let event = Event::Op {
        class,
        latency: instr.latency,
        sources: sources(alloc, &log.reads, done)?,
        place: instr.place,
    };
    log.events.push(event)?;
    Ok(())
}

/// The same of an operation without a hidden operand, by the control source under which it was made.
pub fn note_under(
    alloc: Global,
    log: &mut Log,
    class: Class,
    instr: &Instr,
    control: Option<u64>,
) -> Result<(), NoMemory>
    ensures { OnOk result (log.new.events ≡ log.old.events ++ Op class instr.now.latency (sources_meant log.old.reads.items None control) instr.now.place ∷ []) }
{
    note_operation(alloc, log, class, instr, &done_under(control))?;
    Ok(())
}

/// What an operation that uses nothing beside its operands and the control source depends on.
fn done_under(control: Option<u64>) -> Done
    ensures hidden { result.hidden ≡ None }
    ensures control { result.control ≡ control }
{
    Done {
        held: Held {
            value: Value::Number(0),
            source: None,
        },
        hidden: None,
        control,
        element: None,
    }
}

/// What is returned was moved, if a value is.
pub fn note_moved(
    alloc: Global,
    log: &mut Log,
    moves: bool,
    instr: &Instr,
    control: Option<u64>,
) -> Result<(), NoMemory>
    ensures { OnOk result (log.new.events ≡ log.old.events ++ where_moved moves instr.now log.old.reads.items control) }
{
    if moves {
        note_under(alloc, log, Class::Move, instr, control)?;
    }
    Ok(())
}

/// An instance of a region was entered.
pub fn note_enter(log: &mut Log, region: u32) -> Result<(), NoMemory>
    ensures { OnOk result (log.new.events ≡ log.old.events ++ Enter region ∷ []) }
{
    log.events.push(Event::Enter(region))?;
    Ok(())
}

/// So many instances were left, the newest first.
pub fn note_exits(log: &mut Log, count: u64) -> Result<(), NoMemory>
    ensures { OnOk result (log.new.events ≡ log.old.events ++ replicate count Exit) }
{
    let mut rest = count;
    while rest > 0 {
        log.events.push(Event::Exit)?;
        rest -= 1;
    }
    Ok(())
}
