//! Where the operands of a step come from.
ghost use Rattle.std.specs.Prelude.{◌≡◌, ◌++◌, IfOk, OnOk};
ghost use Rattle.k_replay_recording.specs.Steps.{datum_of as datum_meant, given_by as given_meant, hidden_operands, operand_of as operand_meant, operands_of};
ghost use Rattle.k_world.specs.Answers.{act_of};

use k_num::{NoMemory, Seq};
use k_replay_record::{Datum, Operand};
use k_world::{ActRef, Done, Read, Value};
use std::alloc::Global;

/// A value, as a record has it.
fn datum_of(value: Value) -> Datum
    ensures { result ≡ datum_meant value }
{
    match value {
        Value::Number(number) => Datum::Number(number),
        Value::Pointer(pointer) => Datum::At(pointer),
    }
}

/// An operand that the operation of this number gave, or that none gave and is this.
fn given_by(source: Option<u64>, value: Datum) -> Operand
    ensures { result ≡ given_meant source value }
{
    match source {
        Some(number) => Operand::From(number),
        None => Operand::Fixed(value),
    }
}

/// An operand by what is read of it.
fn operand_of(read: &Read) -> Operand
    ensures { result ≡ operand_meant read.now.slot }
{
    match read.slot {
        Some(held) => given_by(held.source, datum_of(held.value)),
        None => Operand::Fixed(Datum::Nothing),
    }
}

/// The operands of an operation that was made.
pub fn operands(
    alloc: Global,
    act: ActRef<'_>,
    reads: &[Read],
    done: &Done,
) -> Result<Seq<Operand>, NoMemory>
    ensures { IfOk result (λ list. list ≡ operands_of (act_of act.entry) reads.now done.now.hidden done.now.control done.now.held.value) }
{
    let mut list = Seq::new(alloc);
    for read in reads {
        list.push(operand_of(read))?;
    }
    push_hidden(&mut list, act, done)?;
    list.push(given_by(done.control, Datum::Nothing))?;
    Ok(list)
}

/// The operand that the construct does not write, behind others.
fn push_hidden(list: &mut Seq<Operand>, act: ActRef<'_>, done: &Done) -> Result<(), NoMemory>
    ensures { OnOk result (list.new ≡ list.old ++ hidden_operands (act_of act.entry) done.now.hidden done.now.held.value) }
{
    match act {
        ActRef::Load => list.push(given_by(done.hidden, datum_of(done.held.value)))?,
        ActRef::Input | ActRef::Output(_) => list.push(given_by(done.hidden, Datum::Nothing))?,
        _ => {}
    }
    Ok(())
}
