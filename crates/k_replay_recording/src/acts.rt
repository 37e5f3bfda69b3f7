//! What a step does.
ghost use Rattle.std.specs.Prelude.{◌≡◌, ◌++◌, ◌∷◌, [], IfOk};
ghost use Rattle.k_replay_recording.specs.Steps.{operand_behind, output_of as output_meant, piece_of as piece_meant, pieces as pieces_meant, recorded as recorded_meant};
ghost use Rattle.k_world.specs.Answers.{act_of};
ghost use Rattle.k_world.specs.declared.act.Act.TheVariants.{Input};
ghost use Rattle.k_world.specs.Values.{int_of as int_meant};

use k_num::{Kind, NoMemory, Seq, convert};
use k_replay_record::{Act, Piece};
use k_world::{ActRef, Chunk, Out, Value};
use std::alloc::Global;

/// What an act does that gave this value.
#[tactic(auto, unfolding(crate::specs::Steps::recorded))]
pub fn recorded(alloc: Global, act: ActRef<'_>, value: Value) -> Result<Act, NoMemory>
    ensures { IfOk result (λ a. a ≡ recorded_meant (act_of act.entry) value) }
{
    match act {
        ActRef::Binary(op, kind) => Ok(Act::Binary(op, kind)),
        ActRef::Unary(op, kind) => Ok(Act::Unary(op, kind)),
        ActRef::Convert(kind) => Ok(Act::Convert(kind)),
        ActRef::Move => Ok(Act::Same(0)),
        ActRef::Offset { minus, scale } => Ok(Act::Offset(minus, scale)),
        ActRef::PtrCompare(op) => Ok(Act::PtrCompare(op)),
        ActRef::PtrDistance { scale } => Ok(Act::Distance(scale)),
        ActRef::Load | ActRef::Store => Ok(Act::Same(1)),
        ActRef::Input => Ok(input(value)),
        ActRef::Output(what) => output(alloc, what),
        ActRef::Test => Ok(Act::Truth),
        ActRef::Call => Ok(Act::Call),
    }
}

/// A number was read.
#[tactic(auto, unfolding(crate::specs::Steps::recorded))]
fn input(value: Value) -> Act
    ensures { result ≡ recorded_meant Input value }
{
    Act::Input(int_of(value))
}

/// The number that a value is, as an int.
fn int_of(value: Value) -> i32
    ensures { result ≡ int_meant value }
{
    match value {
        Value::Number(number) => convert(Kind::I32, number) as i32,
        Value::Pointer(_) => 0,
    }
}

/// What an output does.
fn output(alloc: Global, what: &Out) -> Result<Act, NoMemory>
    ensures { IfOk result (λ a. a ≡ output_meant what.now) }
{
    match what {
        Out::Byte => Ok(Act::Put),
        Out::Line(bytes) => Ok(Act::Puts(line(alloc, bytes.as_slice())?)),
        Out::Format(chunks) => Ok(Act::Print(pieces(alloc, chunks.as_slice())?)),
    }
}

/// Bytes and a newline.
fn line(alloc: Global, bytes: &[u8]) -> Result<Seq<u8>, NoMemory>
    ensures { IfOk result (λ list. list ≡ bytes.now ++ 10 ∷ []) }
{
    let mut list = Seq::copy_of(alloc, bytes)?;
    list.push(b'\n')?;
    Ok(list)
}

/// The parts of a format, each conversion with the number of its operand.
fn pieces(alloc: Global, chunks: &[Chunk]) -> Result<Seq<Piece>, NoMemory>
    ensures { IfOk result (λ list. list ≡ pieces_meant 0 chunks.now) }
{
    let mut list = Seq::new(alloc);
    let mut next = 0;
    for chunk in chunks {
        list.push(piece(alloc, chunk, next)?)?;
        next = next_operand(chunk, next)?;
    }
    Ok(list)
}

/// A part of a format, where this is the next operand.
fn piece(alloc: Global, chunk: &Chunk, next: u32) -> Result<Piece, NoMemory>
    ensures { IfOk result (λ p. p ≡ piece_meant next chunk.now) }
{
    match chunk {
        Chunk::Bytes(bytes) => Ok(Piece::Bytes(Seq::copy_of(alloc, bytes.as_slice())?)),
        Chunk::Byte => Ok(Piece::Byte(next)),
        Chunk::Decimal => Ok(Piece::Decimal(next)),
        Chunk::Hex => Ok(Piece::Hex(next)),
    }
}

/// The operand that comes next behind a part of a format. More than can be counted take no memory.
fn next_operand(chunk: &Chunk, next: u32) -> Result<u32, NoMemory>
    ensures { IfOk result (λ n. n ≡ operand_behind chunk.now next) }
{
    match chunk {
        Chunk::Bytes(_) => Ok(next),
        _ => match next.checked_add(1) {
            Some(more) => Ok(more),
            None => Err(NoMemory),
        },
    }
}
